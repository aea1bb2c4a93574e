//! Files of events are read back as these events.

ghost use Rattle.std.specs.Prelude.{◌≡◌, Ok};
ghost use Rattle.mx_plan.specs.Events.{events_at};
ghost use Rattle.mx_plan.specs.Fields.{IsPlan};
ghost use Rattle.mx_format.specs.Files.{file_text};
ghost use Rattle.mx_event_files.specs.Played.{AreReadable};

use mx_network::Event;
use mx_plan::Plan;

/// Proves that the file that is printed of `events` is read as the same events, by the rules of
/// `replay`, if they are at most 1,000,000 and name only what the plan names. Does nothing.
pub fn reads_back(plan: &Plan, events: &[Event])
    ensures { IsPlan plan.now → AreReadable plan.now events.now
        → events_at plan.now (file_text plan.now events.now) ≡ Ok events.now }
{}
