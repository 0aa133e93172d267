//! What a command line requests, for programs that have help, but no version.

/// Help, or what was parsed.
#[derive(Debug, Drop)]
pub enum Request<T> {
    Help,
    Parsed(T),
}
