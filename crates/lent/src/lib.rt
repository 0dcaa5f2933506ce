// A frame's record as a struct, and the two functions that read and store one record of a slice of them: the form in which the Rust's
// `Vec<ExecFrame>` is lent to `execute_outcome_in_frames`. Everything else takes records by value.
#![tactic(auto)]

ghost use Rattle.std.specs.Prelude.{◌≡◌, set};
ghost use Rattle.lent.specs.Records.{record_at};

#[derive(Clone, Copy, Debug, Default, PartialEq, Eq)]
pub struct FrameRecord {
    pub function: u64,
    pub place: u64,
    pub dst: u64,
    pub first: u64,
}

// Record k, or one of zeros where there is none.
pub fn record_at(frames: &[FrameRecord], k: usize) -> FrameRecord
    ensures { result ≡ record_at frames.now k }
{
    frames.get(k).copied().unwrap_or_default()
}

// Where there is no record k, nothing is stored.
pub fn put_record(frames: &mut [FrameRecord], k: usize, frame: FrameRecord)
    ensures { frames.new ≡ set frames.old k frame }
{
    if k < frames.len() {
        frames[k] = frame;
    }
}
