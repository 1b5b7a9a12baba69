// Stored shelves: decoding a file onto a shelf, and writing a shelf.
#![tactic(auto)]

pub mod decoding;
pub mod encoding;

pub use decoding::decode;
pub use encoding::encode;
pub use reader::{Body, Reader, Span};
pub use stored_laws::{StoredCode, StoredFault};
