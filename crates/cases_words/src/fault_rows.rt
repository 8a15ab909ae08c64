// Faults: what is told of them.
ghost use Rattle.cases_words.specs.Faults.{FaultLayersShown, FaultLinesShown, FaultNumbersShown, FaultPlacesShown};

// The numbers of faults.
pub fn fault_numbers_stand()
    ensures { FaultNumbersShown }
{}

// The places of faults.
pub fn fault_places_stand()
    ensures { FaultPlacesShown }
{}

// The layers of faults.
pub fn fault_layers_stand()
    ensures { FaultLayersShown }
{}

// What errors are printed as.
pub fn fault_lines_stand()
    ensures { FaultLinesShown }
{}
