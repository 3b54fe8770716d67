//! The files that a call reads.

/// A file that the program reads, by its place among the words.
#[derive(Clone, Copy, Drop)]
pub enum InputFile {
    /// The catalogue of device models.
    Catalogue,
    /// The project that is checked, compiled, or is to run.
    New,
    /// The project whose configuration the devices begin with.
    Old,
    /// The script.
    Script,
}
