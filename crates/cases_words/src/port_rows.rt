// Ports: what they keep to, and which are valid.
ghost use Rattle.cases_words.specs.Held.{HeldHold, SameLimits};
ghost use Rattle.cases_words.specs.Limits.{ExistingHold, KeysShown, MarkedHold, MembersHold, MovesAtShown, RisingHold, RisingMovesHold, TextsHold};
ghost use Rattle.cases_words.specs.Ports.{LargeHold, PortsHold};
ghost use Rattle.cases_words.specs.Requests.{RequestsHold};

// Members of lists.
pub fn members_stand()
    ensures { MembersHold }
{}

// The move at a place.
pub fn moves_at_stand()
    ensures { MovesAtShown }
{}

// The order of moves, as a number.
pub fn keys_stand()
    ensures { KeysShown }
{}

// Conditions of so many marks.
pub fn marked_stand()
    ensures { MarkedHold }
{}

// Conditions that rise, and that do not.
pub fn rising_stand()
    ensures { RisingHold }
{}

// Moves of which all that they name exists.
pub fn existing_stand()
    ensures { ExistingHold }
{}

// Moves that rise.
pub fn rising_moves_stand()
    ensures { RisingMovesHold }
{}

// Texts that a request may have.
pub fn texts_stand()
    ensures { TextsHold }
{}

// Valid ports, and ports that break a limit.
pub fn ports_stand()
    ensures { PortsHold }
{}

// As many moves as there may be, and one more.
pub fn large_stand()
    ensures { LargeHold }
{}

// Requests as they are held in memory.
pub fn requests_stand()
    ensures { RequestsHold }
{}

// Ports as they are held in memory, and ports that cannot be.
pub fn held_stand()
    ensures { HeldHold }
{}

// The limits of a port in memory are those of a valid one.
pub fn limits_stand()
    ensures { SameLimits }
{}
