// What a controller is asked, and what it promises over whole histories of calls.
#![tactic(auto)]

ghost use Rattle.histories.specs.Promise.{OpeningHolds, PromiseHolds};

// What is asked of a controller: each names a request.
#[derive(Clone, Copy, Debug, PartialEq)]
pub enum Command {
    Quote(u8),
    Ask(u8),
    Step(u8),
    Close(u8),
}

// Every history from an accepted opening has the promise.
pub fn promise_stands()
    ensures { PromiseHolds }
{}

// An opening is refused exactly where no simulation holds the start.
pub fn opening_stands()
    ensures { OpeningHolds }
{}
