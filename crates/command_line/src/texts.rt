//! The text of help.

/// The name by which usage lines call the program.
pub(crate) const NAME: &str = "proust_tool";

/// What `--version` prints after the program's name.
pub(crate) const VERSION: &str = "0.1.0";

pub(crate) const TOOL: &str =
    "Runs transactions of Wolimevar, a software transactional memory: step by step as a script says, under every schedule of
their steps, reservations of a file, or drawn reservations as a benchmark.";

pub(crate) const TOOL_ENDING: &str = "Examples:
  proust_tool step examples/first.steps
  proust_tool explore examples/explore/write_skew.steps
  proust_tool vacation examples/reservations/a_wait_is_served.sessions
  proust_tool bench --clients 4 --times

docs/formats.md has the formats of scripts and session files, and what is printed; examples/ has files to run.

Exit status:
  0  done
  1  refused words, file or text, or the output can't be written
  2  out of memory
  3  an audit found a fault, which is promised never to happen
A fault is one line on standard error, and nothing on standard output.";

pub(crate) const STEP: &str = "Runs a step script: actors whose transactions overlap as it says";

pub(crate) const STEP_ENDING: &str =
    "A step script lays out words and collections, and says line by line which actor asks for what, and when it takes
its steps. One with a map, in which actor 1 puts 50 at key 5 and commits:

    map 1
    1 do begin
    1 do call 0 put 5 50
    1 do commit

It prints each answer, the committed transactions, and what the words and collections hold at the end.
docs/formats.md has all lines of a script; examples/first.steps, examples/words and examples/collections have
scripts, beside what they print.

Examples:
  proust_tool step examples/first.steps
  proust_tool step --lanes examples/words/write_skew.steps";

pub(crate) const LANES: &str =
    "Prints the events as lanes, an actor a column: what is asked, what each step does and finds, and what is
answered. After 1000 events the number of the others stands there";

pub(crate) const EXPLORE: &str =
    "Runs the transactions of a step script under every schedule, and says what they can answer";

pub(crate) const EXPLORE_ENDING: &str =
    "The script has requests alone, of at most eight actors; when steps are taken is left open. One in which two actors add one
to the same word:

    words 0
    1 do begin
    1 do read 0
    1 do write 0 1
    1 do commit
    2 do begin
    2 do read 0
    2 do write 0 1
    2 do commit

Each outcome, which is the answers of each actor, the committed transactions, and what words and collections hold, is
printed once: how many schedules gave it, what it is, and the shortest script with steps that leads there. Schedules
that differ only by the order of steps that touch nothing in common are run once.
docs/interleavings.md says more; examples/explore has scripts, beside what they print.

Example:
  proust_tool explore examples/explore/write_skew.steps";

pub(crate) const MOST: &str = "At most so many runs are made: 1 to 1000000000";

pub(crate) const VACATION: &str = "Runs a session file: reservations of cars, flights and rooms";

pub(crate) const VACATION_ENDING: &str =
    "A session file says which items there are, and then line by line what customers ask for; each such line is one
transaction. One with three cars at a price of 50, of which customer 7 books one and asks for the bill:

    have car 1 3 50
    reserve 7 car 1
    bill 7

It prints the answer of each session with the number of its commit, and what the tables hold at the end.
docs/formats.md has all lines of a session file; examples/reservations has files, beside what they print.

Example:
  proust_tool vacation examples/reservations/a_wait_is_served.sessions";

pub(crate) const WORKERS: &str =
    "How many workers run the sessions, in threads: 0 to 64. With 0 one session runs after another.
With 2 or more the order of the commits, and so the answers, may differ from run to run";

pub(crate) const FILE: &str = "The file, or - for standard input";

pub(crate) const BENCH: &str = "Draws reservations, and has workers run them in threads";

pub(crate) const BENCH_ENDING: &str =
    "A session is a reservation of one unit of each kind it asks for, the deletion of a customer, or an update of items. It prints
how many workers and sessions there were, and how many sessions were missed, as no attempt of theirs committed.
docs/formats.md says how sessions are drawn.

Examples:
  proust_tool bench --clients 4 --times
  proust_tool bench --clients 4 --times csv
  proust_tool bench --relations 10000 --queries 2 --percent-user 98 --transactions 100000";

pub(crate) const CLIENTS: &str =
    "How many workers there are, each in a thread with sessions of its own: 1 to 64";

pub(crate) const QUERIES: &str =
    "How many items a reservation asks for, and how many changes an update makes: 1 to 100";

pub(crate) const PERCENT_QUERIED: &str =
    "The percentage of the items that sessions name: 1 to 100. With fewer, more sessions conflict";

pub(crate) const RELATIONS: &str =
    "How many cars there are, how many flights, and how many rooms: 1 to 10000";

pub(crate) const TRANSACTIONS: &str = "How many sessions all workers run together: 1 to 100000";

pub(crate) const PERCENT_USER: &str =
    "The percentage of reservations: 0 to 100. Half of the other sessions are deletions, half updates";

pub(crate) const SEED: &str =
    "The number that items and sessions are drawn from, of 64 bits. The same number gives the same ones";

pub(crate) const TRIES: &str =
    "How often a session is attempted, before it is missed: 1 to 1000000";

pub(crate) const TIMES: &str =
    "Also prints on standard error how long the run and its audit took, how many sessions committed a second,
and how many attempts were refused, for what. FORM is prose, which is meant where it is left out,
or csv: a line of names and a line of numbers";
