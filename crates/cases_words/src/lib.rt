// Examples for the definitions of formulas, ports, sheets and faults, as theorems: what holds, and what does not. Each function
// stands for the rows of one list, by its contract.
#![tactic(auto)]

pub mod fault_rows;
pub mod formula_rows;
pub mod port_rows;
pub mod sheet_rows;
