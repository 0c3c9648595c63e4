// A venue's clock: its offsets, and when they change.
ghost use Rattle.zone.specs.Answers.{Valid, valid_prop};

// The offset before the first transition, the transitions' instants, and the offset from each on. An offset is in seconds plus 57,600, so that
// it is never negative.
#[derive(Clone, Copy)]
pub struct Clock<'a> {
    pub offset0: u32,
    pub ats: &'a [u64],
    pub offsets: &'a [u32],
    pub ghost valid: { Valid offset0 ats.now offsets.now } by { valid_prop offset0 ats.now offsets.now },
}
