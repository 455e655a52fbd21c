// Vectors as byte strings: the highest bit of the first byte is bit 0.

// Writes the bytes to words that are 0.
pub(crate) fn put_bytes(words: &mut [u64], bytes: &[u8]) {
    for (word, eight) in words.iter_mut().zip(bytes.chunks(8)) {
        *word = eight
            .iter()
            .rev()
            .fold(0, |x, b| x << 8 | u64::from(b.reverse_bits()));
    }
}

// Writes the bytes of the words to bytes that are 0, as many as there are.
pub(crate) fn get_bytes(words: &[u64], out: &mut [u8]) {
    for (word, eight) in words.iter().zip(out.chunks_mut(8)) {
        let bytes = word.to_le_bytes();
        for (byte, b) in eight.iter_mut().zip(bytes.iter()) {
            *byte = b.reverse_bits();
        }
    }
}
