//! A run with events of every kind, and the journals after it.

ghost use Rattle.mx_ricart.specs.Step.{IsCount, ricart_core};
ghost use Rattle.mx_model_runs.specs.Journals.{Merges, joint_journal, joint_registers, journals_trace, ones_journal, zeros_journal};

/// Proves that a run with events of every kind can happen, and that its two nodes' journals merge.
/// In it, a request is withdrawn, and another is sent again. A node restarts in its section, and
/// reads what the section before wrote. A read is refused, and succeeds once a base and a record
/// have come. At the end each of the two journals lacks a section that the other has.
pub fn journals_merge()
    ensures { Merges ricart_core IsCount 2 journals_trace zeros_journal ones_journal joint_journal joint_registers }
{}
