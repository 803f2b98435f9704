//! Named files and the standard streams, with a count of the calls that failed.
#![tactic(auto)]

mod bytes;
mod count;
mod desk;
mod error;
mod host;
mod memory;
mod row_buf;
mod schedule;
mod slot;
mod store;
mod stored;
mod stream;
mod whole;

pub use bytes::Bytes;
pub use desk::Desk;
pub use error::{DeskError, Failed};
pub use host::HostDesk;
pub use memory::MemoryDesk;
pub use row_buf::RowBuf;
pub use stream::{write_line, write_output};
pub use whole::{read_file, read_front, write_file};
