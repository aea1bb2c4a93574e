//! The text that `help` prints.

ghost use Rattle.std.specs.Prelude.{◌≡◌, ◌++◌, OnOk, string_bytes};
ghost use Rattle.mx_play.specs.Help.{words_text};

use std::alloc::AllocError;

#[tactic(auto, unfolding(crate::specs::Help::words_text))]
pub(crate) fn add_words(text: &mut String) -> Result<(), AllocError>
    ensures { OnOk result (string_bytes text.new ≡ string_bytes text.old ++ words_text) }
{
    text.push_str(WORDS)
}

const WORDS: &str = "ask N         node N asks to enter\n\
    enter N       node N enters, if it may\n\
    read N R      node N, inside, reads register R\n\
    write N R V   node N, inside, writes the number V to register R\n\
    leave N       node N leaves\n\
    cancel N      node N gives its request up\n\
    tick N        node N sends again what may be lost\n\
    want N M      node N asks node M for records that it lacks\n\
    settle N K    node N settles the sections up to K\n\
    restart N     node N starts again, and keeps its journal\n\
    deliver K     parcel K arrives\n\
    deliver N M   the oldest parcel under way from N to M arrives\n\
    deliver all   all parcels under way arrive, and those sent meanwhile\n\
    deliver all N M  the same for those from N to M\n\
    lose N M      the oldest parcel under way from N to M is lost\n\
    lose K        parcel K is lost, if it is under way\n\
    lose all      all parcels under way are lost\n\
    lose all N M  all parcels under way from N to M are lost\n\
    again N M     the parcel from N to M that arrived last arrives once more\n\
    cut N M       the link between N and M is cut: no parcel arrives over it\n\
    cut N         all links of node N are cut\n\
    partition N .. | M ..  each link between a node left of | and one right of it is cut\n\
    heal N M      the link between N and M works again\n\
    heal N        all links of node N work again\n\
    heal          all links work again\n\
    times T ..    does what follows T times\n\
    expect ..     compares the outcome of the last event with what follows\n\
    show          prints each node, and the parcels under way\n\
    show N        prints node N, and the parcels under way to it\n\
    undo          undoes the last line that was done\n\
    undo K        undoes the last K lines that were done\n\
    redo          reverses the last undo\n\
    events        prints the events so far, as a file that `mx replay` reads\n\
    script        prints what has happened so far, as a script\n\
    save FILE     writes that script to FILE\n\
    mark WORD     prints `mark WORD`\n\
    help          lists these lines\n\
    end           prints the nodes and the verdict, and ends the session\n\
    quit, exit    the same as end\n\
    To edit and recall lines, start with `rlwrap mx play PLAN`.\n";
