// The entries of a list of calls: what is asked, and the answer.
use bits::refusal::Fault;
use cipher::instance::Instance;

// A batch with an instance and memory of its own, whatever they are.
#[derive(Drop)]
pub struct Batch<'a, W: Copy> {
    pub held: Instance<'a>,
    pub count: usize,
    pub blocks: Vec<u64>,
    pub keys: Vec<u64>,
    pub masks: Vec<u64>,
    pub cells: Vec<W>,
}

// What can be asked of an engine: more gates, or a batch in one of the two directions. These are two cases, since a call names its direction as the public
// functions do.
#[derive(Drop)]
pub enum Call<'a, W: Copy> {
    Grant(u32),
    Encrypt(Batch<'a, W>),
    Decrypt(Batch<'a, W>),
}

// A call and its answer, which is missing until the call is made.
#[derive(Drop)]
pub struct Entry<'a, W: Copy> {
    pub call: Call<'a, W>,
    pub answer: Option<Result<(), Fault>>,
}
