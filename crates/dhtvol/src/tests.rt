//! Tests over data: of whole runs, of the reader of lines, and of sources and sinks.

mod lines;
mod outside;
mod runs;
