//! The texts of help, and the version.

/// What `mx --version` prints after the name: the version, and the checksum of the prover's logic,
/// which several releases of the Rattle kit share.
pub(crate) const VERSION: &str = "0.1.0, proved by Rattle's logic dac8208d650f15bf";

pub(crate) const MX: &str =
    "Guards shared registers by distributed mutual exclusion: Ricart and Agrawala, Maekawa, Raymond";

pub(crate) const MX_EXAMPLE: &str =
    "Example: three nodes by the algorithm of Ricart and Agrawala, and the events of one section.

  plan.json    {\"algorithm\":\"ricart\",\"nodes\":[\"a\",\"b\",\"c\"],\"registers\":[\"count\"],\"sections\":10}
  events.json  [[\"ask\",\"a\"],[\"deliver\",0],[\"deliver\",1],[\"deliver\",2],[\"deliver\",3],
                [\"enter\",\"a\"],[\"leave\",\"a\"]]

  mx check plan.json
  mx replay plan.json events.json
  mx explain plan.json events.json
  mx picture plan.json events.json > picture.svg
  mx count plan.json events.json
  mx replay plan.json events.json --json | mx judge plan.json -
  mx play plan.json
  mx draw plan.json --seed 1 --steps 100 > drawn.json
  mx script plan.json script.txt > scripted.json
  mx explore plan.json --seed 1 --steps 1000
  mx live plan.json --sections 3

A name - is standard input. `mx COMMAND --help` tells what a command reads; docs/FORMATS.md has
all formats.

Status: 0 all went well; 1 a plan, its events, a file or an output at fault; 2 no such command;
3 a live run has spent its turns, or its gate is shut; 4 the verdict is that the trace is broken;
5 out of memory.";

pub(crate) const CHECK_EXAMPLE: &str =
    "A plan is an object of JSON. For the algorithm of Ricart and Agrawala:

  {\"algorithm\":\"ricart\",\"nodes\":[\"a\",\"b\",\"c\"],\"registers\":[\"count\"],\"sections\":10}

It has 1 to 21 nodes, 1 to 32 registers, the greatest section number (1 to 1000000), and may have
an origin, the number at which stamps start. Maekawa's algorithm also wants the sets of arbiters,

  \"quorums\":{\"kind\":\"plane\"}, {\"kind\":\"grid\",\"rows\":R,\"cols\":C}
            or {\"kind\":\"listed\",\"sets\":[[NODE, ..], ..]}

and Raymond's the edges of a tree and the node that has the privilege at the start:

  \"edges\":[[\"a\",\"b\"],[\"b\",\"c\"]],\"holder\":\"a\"

The first line printed tells the algorithm, and how many nodes, registers and sections there are.
After it come, for Maekawa, lines `meet a b: c` of the least arbiter that any two nodes share, and
for Raymond lines `toward a: b` of each node's way to the holder. With --asks come lines
`asks a: b c` of whom each node asks: for Ricart and Agrawala all others, for Maekawa its
arbiters, itself among them, and for Raymond, at the start, its neighbour on the way to the
holder, which asks nobody. With --json each line is an object of JSON. If something is wrong,
`mx explain PLAN` says where it is and what was expected. docs/FORMATS.md has all formats.";

pub(crate) const REPLAY_EXAMPLE: &str =
    "Example: the events of one section, in a cluster of three nodes.

  plan.json    {\"algorithm\":\"ricart\",\"nodes\":[\"a\",\"b\",\"c\"],\"registers\":[\"count\"],\"sections\":10}
  events.json  [[\"ask\",\"a\"],[\"deliver\",0],[\"deliver\",1],[\"deliver\",2],[\"deliver\",3],
                [\"enter\",\"a\"],[\"leave\",\"a\"]]

  mx replay plan.json events.json

Events are [\"ask\",NODE], [\"enter\",NODE], [\"read\",NODE,REGISTER], [\"write\",NODE,REGISTER,VALUE],
[\"leave\",NODE], [\"cancel\",NODE], [\"tick\",NODE], [\"want\",NODE,NODE], [\"settle\",NODE,SECTION],
[\"restart\",NODE] and [\"deliver\",K], where K counts the parcels sent so far from 0. A node that
settles keeps what the sections up to that one left in the registers, in place of their records.
For each event a line tells what came of it, and for each parcel that it sent, from whom to whom
it goes and what it says. Then a line for each node tells where it stands and what its journal
has, and the last line is the verdict. A name - is standard input. Where both are -, its first
line is the plan and the rest is the events. If something is wrong, `mx explain PLAN EVENTS` says
where it is and what was expected. `mx check --help` tells what a plan is; docs/FORMATS.md has all
formats.

With --quiet only the lines at the end are printed; with --node NAME only those of this node: its
events, the parcels that it sends or that are sent to it, and its line at the end; with --json an
object of JSON in place of each line. With --state a line below that of a node tells what the node
knows by its algorithm, as `show` of `mx play` does, and both lines of its node follow each event;
with --json its object follows, which always tells what the node knows. They may stand together:

  mx replay plan.json events.json --node a --json
  mx replay plan.json events.json --quiet --state";

pub(crate) const EXPLORE_EXAMPLE: &str =
    "Example: a thousand steps from the seed 1, and a walk in which a quarter of the parcels are lost.

  plan.json    {\"algorithm\":\"ricart\",\"nodes\":[\"a\",\"b\",\"c\"],\"registers\":[\"count\"],\"sections\":1000}

  mx explore plan.json --seed 1 --steps 1000
  mx explore plan.json --seed 1 --steps 1000 --walk --loss 64

The events are asking, entering, reading, writing, leaving, cancelling, ticking, wanting,
settling, restarting and the delivery of one of the newest 64 parcels. The first line counts the
steps, how often a node entered, and the parcels that were sent; the last line is the verdict.
With --count the counts of `mx count` stand between them, and with --json each line is an object
of JSON.

With --walk the events are those of `mx draw .. --walk` from the same seed, steps and options, so
that nodes come to enter: most steps deliver a parcel that is under way, and in the others a node
does what it can. With --in-order, the oldest parcel under way from and to the same nodes is
delivered in place of the one that was drawn. --count and --json do not go with --walk.
`mx check --help` tells what a plan is; docs/FORMATS.md has all formats.";

pub(crate) const LIVE_EXAMPLE: &str =
    "Example: three nodes, each in a thread of its own, add 1 to a register in three sections each.

  plan.json    {\"algorithm\":\"ricart\",\"nodes\":[\"a\",\"b\",\"c\"],\"registers\":[\"count\"],\"sections\":10}

  mx live plan.json --sections 3

prints

  receipts 9
  gapless 9
  count=9

The links between the threads lose a parcel in 16 and repeat one in 16, as the seed draws it
(`--seed`, 1 if it is not given). Each node may take 10000000 turns, or as many as `--turns` says.
The first line counts the receipts of the sections that were left; then comes up to which number
the gathered journal has no gap, and what it shows of each register. Nothing is printed where a
node is not done once its turns are spent: `mx: turns spent`, status 3. The plan has to allow as
many sections as all nodes together want, else `mx: too few sections`, status 1.

With `--settle 100` each node puts the registers in place of the records that its journal has
without a gap, after each 100 of its own sections, so that journals stay small. What is printed
tells of all sections either way.

`mx check --help` tells what a plan is; docs/FORMATS.md has all formats.";
