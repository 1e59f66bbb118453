// What a run is asked.
use fs_model::Moment;

/// The words of a run, and the moment of its lines.
#[derive(Clone, Copy)]
pub struct Request<'a> {
    pub words: &'a [String],
    pub now: Moment,
}
