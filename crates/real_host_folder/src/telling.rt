// What a copy says on standard error.
use crate::error::HostError;
use crate::place::Place;
use crate::progress::Progress;
use crate::text::ShownPath;
use fs_model::Name;

const NO_ROW: &str = "is no file, folder or link";

/// Says what is wrong with a row of the folder, and how far the copy is.
#[derive(Drop)]
pub struct Telling<'a> {
    rt: HostRuntime,
    folder: &'a str,
    pub progress: Progress,
    /// Whether what is left out was told already.
    pub has_told: bool,
}

impl<'a> Telling<'a> {
    pub fn new(place: Place<'a>) -> Telling<'a> {
        Telling {
            rt: place.rt,
            folder: place.folder,
            progress: Progress::new(place.rt),
            has_told: false,
        }
    }

    /// Says what is wrong with the row, or with a child of it that is named, where that is no want of memory and wasn't told already.
    pub fn tell(&mut self, names: &[Name], child: Option<&str>, error: &HostError) {
        let path = ShownPath {
            folder: self.folder,
            names,
            child,
        };
        self.progress.clear();
        match error {
            HostError::Memory | HostError::Told => {}
            HostError::Wrong(wrong) => {
                let _ = eprintln!(self.rt; "cryfs: {path} {wrong}");
            }
            HostError::NoRow => {
                let _ = eprintln!(self.rt; "cryfs: {path} {NO_ROW}");
            }
            HostError::Io(error) => {
                let _ = eprintln!(self.rt; "cryfs: {path}: {error}");
            }
        }
    }

    /// Says that a child is left out, since it is neither file, folder nor link. Once it was told so, it isn't again.
    pub fn tell_left_out(&mut self, names: &[Name], child: &str) {
        if self.has_told {
            return;
        }
        let path = ShownPath {
            folder: self.folder,
            names,
            child: Some(child),
        };
        self.progress.clear();
        let _ = eprintln!(self.rt; "cryfs: {path} {NO_ROW}: left out");
    }
}
