//! What a job notes of the replies to its calls.
ghost use Rattle.std.specs.Prelude.{◌≡◌};

/// What a job noted of the replies so far, while one transaction asks: so its next ask need not look at them again. It is numbers alone,
/// and takes no memory. Each attempt begins with a new place, since another transaction may be replied otherwise.
#[derive(Clone, Copy)]
pub struct JobPlace {
    /// To how many of the replies, from the first on, the marks apply. At 0, as in a new place, nothing is noted, whatever the marks.
    pub heard: usize,
    /// What was noted of them. Only the job reads them, so they mean what it likes: which reply is the best so far, a sum.
    pub marks: [u64; 4],
}

impl JobPlace {
    /// A place in which nothing is noted.
    pub fn new() -> JobPlace
        ensures { result.heard ≡ 0 }
    {
        JobPlace {
            heard: 0,
            marks: [0; 4],
        }
    }
}
