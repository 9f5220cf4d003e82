// The count of the lines: of the present run of lines that name one function, and of all.
ghost use Rattle.std.specs.Option.{ForSome};
ghost use Rattle.replay.specs.Runs.{Kept};

// A run of calls of one function: the function's name, how many calls there were, and how many agreed.
#[derive(Clone, Copy)]
pub struct Run<'a> {
    pub name: &'a [u8],
    pub put: u64,
    pub agreed: u64,
}

// The present run, and of the list so far: calls, comments, and lines that are neither.
#[derive(Clone, Copy)]
pub struct Tally<'a> {
    pub run: Option<Run<'a>>,
    pub calls: u64,
    pub comments: u64,
    pub bad: u64,
    ghost kept: { ForSome run (λ r. Kept r calls) },
}
