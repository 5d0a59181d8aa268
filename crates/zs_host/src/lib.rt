//! What a run has of the world outside: files by name, sinks for bytes, and a gate that its workers
//! pass; with the objects in memory that tests use, and the adapters to the real ones.
#![tactic(auto)]

mod fault;
mod fault_log;
mod files;
mod gate;
mod meeting_gate;
mod mem_files;
mod mem_sink;
mod no_memory;
mod real_files;
mod real_sink;
mod sink;
mod sure_files;
mod sure_sink;

pub use fault::{Fault, Operation};
pub use files::{FileFail, Files};
pub use gate::{Gate, OpenGate, Point};
pub use meeting_gate::{MeetingGate, Passes};
pub use mem_files::MemFiles;
pub use mem_sink::MemSink;
pub use real_files::RealFiles;
pub use real_sink::{RealErr, RealOut, RealSink};
pub use sink::{Sink, SinkFail};
pub use sure_files::SureFiles;
pub use sure_sink::SureSink;
