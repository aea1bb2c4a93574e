//! Which names commands read, and in which order.

ghost use Rattle.std.specs.Prelude.{◌≡◌, ◌++◌, ◌∷◌, [], map, string_bytes};

use crate::refused_outputs::RICART;
use mx_dispatch::command;
use mx_io::{Source, SourceFault, Table};
use std::alloc::Global;
use std::process::Abort;

/// A table that notes each name that is read. It ends the process if memory runs out.
#[derive(Drop)]
struct NotedTable<'a, R: Abort> {
    rt: &'a R,
    table: Table<'a>,
    names: Vec<String>,
}

impl<R: Abort> Source for NotedTable<'_, R> {
    ghost use Rattle.std.specs.Prelude.{Some, map, string_bytes};

    ghost asked = { λ s. Some (map string_bytes s.names.items) };

    fn bytes(&mut self, alloc: Global, name: &str) -> Result<Vec<u8>, SourceFault> {
        note(self.rt, alloc, &mut self.names, name);
        self.table.bytes(alloc, name)
    }
}

fn note(rt: &impl Abort, alloc: Global, names: &mut Vec<String>, name: &str)
    ensures { map string_bytes names.new.items ≡ map string_bytes names.old.items ++ name.now ∷ [] }
{
    let name = String::from_str(alloc, name).expect(rt, "no memory for a name");
    names.push(name).expect(rt, "no memory for a list of names");
}

fn are_these(read: &[String], names: &[&str]) -> bool {
    read.len() == names.len() && read.iter().zip(names).all(|(a, b)| a.as_str() == *b)
}

#[test]
fn each_name_is_read_once(rt: HostRuntime) {
    let events = "[[\"ask\",\"a\"]]";
    let rows: [(&[&str], &[&str]); 9] = [
        (&["check", "p"], &["p"]),
        (&["check", "nowhere"], &["nowhere"]),
        (&["replay", "p", "e"], &["p", "e"]),
        (&["replay", "p", "nowhere"], &["p", "nowhere"]),
        (&["replay", "nowhere", "e"], &["nowhere"]),
        (&["replay", "-", "-"], &["-"]),
        (&["count", "-", "e"], &["-", "e"]),
        (&["explain", "p", "e"], &["p", "e"]),
        (&["replay", "p"], &[]),
    ];
    let entries = [
        ("p", RICART.as_bytes()),
        ("e", events.as_bytes()),
        ("-", RICART.as_bytes()),
    ];
    for (words, names) in &rows {
        let mut source = NotedTable {
            rt: &rt,
            table: Table { entries: &entries },
            names: Vec::new(rt.alloc()),
        };
        let mut out = Vec::new(rt.alloc());
        let mut err = Vec::new(rt.alloc());
        command(rt.alloc(), words, &mut source, &mut out, &mut err);
        assert!(rt; are_these(source.names.as_slice(), names));
    }
}
