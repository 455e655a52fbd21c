// The laws of the cipher, as facts that this crate is refused without.
ghost use Rattle.cipher.specs.Laws.{Collapse, Decryption, Examples, Undone};

// The substitution layer and its inverse undo each other, on any number of triples, and a state of n bits stays one.
pub fn substitution_stands()
    ensures { Undone }
{}

// Of a lawful set whose layers all have inverses, decryption undoes encryption and encryption decryption, under each key, and blocks stay within their bits.
pub fn decryption_stands()
    ensures { Decryption }
{}

// Of a lawful set, some layer takes a vector other than zero to zero exactly when some key gives two different blocks one ciphertext.
pub fn collapse_stands()
    ensures { Collapse }
{}

// Worked examples: the S-box as a table, and small sets, one of which collapses.
pub fn examples_stand()
    ensures { Examples }
{}
