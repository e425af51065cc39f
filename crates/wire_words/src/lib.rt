//! The words of dqlite's wire protocol, version 1. A message is a header of eight bytes and a body of whole words of
//! eight bytes: numbers, little-endian, and texts and bytes that zeros fill up to a word.
#![tactic(auto)]

mod fault;
mod laws;
mod message;
mod splitter;
mod text;
mod unfinished;
mod value;
mod values;
mod words;
mod writer;

pub use fault::WordFault;
pub use laws::{
    blobs_read_back, messages_stand_apart, one_spelling, one_spelling_of_values, pairs_read_back,
    params_read_back, raw_reads_back, rows_read_back, streams_read_back, texts_read_back,
    values_read_back, what_is_read_can_be_written, words_read_back,
};
pub use message::{Header, Message};
pub use splitter::{MAX_CLIENT_WORDS, MAX_PEER_WORDS, SplitFault, Splitter};
pub use text::WireText;
pub use value::{Dialect, Value, ValueType};
pub use words::Words;
pub use writer::Writer;

/// Bytes of the wire.
pub type WireBytes = dq_base::Items<u8>;
