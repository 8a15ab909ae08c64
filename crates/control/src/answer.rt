// What a controller answers.
use crate::refusal::Refusal;

// What a command that is not refused comes to: a quote, a grant with its quote, an operation worked, or a stage gone on to.
#[derive(Clone, Copy, Debug, PartialEq)]
pub enum Reply<K> {
    Quoted(K),
    Granted(K),
    Worked(u8),
    Closed(u8),
}

// A reply, or why there is none.
pub type Answer<K> = Result<Reply<K>, Refusal>;
