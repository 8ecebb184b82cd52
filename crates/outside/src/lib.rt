//! The inputs and outputs of a program: sources and sinks of bytes, and shelves of files. Each trait states which bytes
//! pass, if they are known, and when a call may fail. Contracts know the bytes of the kinds in memory, which tests can
//! make fail. They do not know the bytes of the adapters, which reach the system.
#![tactic(auto)]

mod file_shelf;
mod memory_shelf;
mod schedule;
mod shelf;
mod sink;
mod source;
mod whole;
mod word;

pub use file_shelf::FileShelf;
pub use memory_shelf::{MemoryShelf, PlainShelf};
pub use shelf::{Fetched, Shelf};
pub use sink::{MemorySink, Put, Sink, StdSink, put_all};
pub use source::{MemorySource, PlainSource, Source, StdSource, Taken};
pub use whole::{ReadFault, read_whole};
pub use word::Word;
