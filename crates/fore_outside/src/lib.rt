//! What a program meets outside: files that it reads, and streams that it writes to.
//!
//! - `Shelf` and `Sink` are where files are read from and texts are written to; `put_all` puts a whole text.
//! - `MemShelf` and `MemSink` are both in memory, with `NamedFile` for what they hold and calls that are to fail.
//! - `FileShelf` and `StreamSink` are both for real.
#![tactic(auto)]

mod counts;
pub mod crossing;
pub mod file_shelf;
pub mod mem_shelf;
pub mod mem_sink;
pub mod named_files;
pub mod shelf;
pub mod sink;
pub mod stream_sink;

pub use file_shelf::FileShelf;
pub use mem_shelf::MemShelf;
pub use mem_sink::MemSink;
pub use shelf::{Shelf, ShelfFault};
pub use sink::{Sink, SinkFault, put_all};
pub use stream_sink::StreamSink;
