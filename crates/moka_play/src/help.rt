//! What the program tells about itself.

const VERSION: &str = "moka 0.1.0 (Wudzghela)\n";

const HELP: &str = "\
usage: moka play < SCHEDULE > REPORT
       moka make N SEED > SUMMARY
       moka behind < LINES > REPLIES
       moka memo < LINES > REPLIES
       moka gateway < LINES > REPLIES
       moka --help
       moka --version

play runs a schedule on a cache of one thread, and writes a report of it. make runs a workload that
it generates on such a cache, and writes a summary. behind, memo and gateway are programs on such a
cache: each reads lines, and writes what it replies to them.

A schedule is lines of text. The first line is cache, and then these options, each or not, in this
order:
  cap=N                      the capacity is N; a cache of capacity 0 stores nothing
  log=N                      the write log has room for N writes, 1 to 65536; without it for 384
  seed=N                     the ids of predicates are drawn from N; without it from 0
  ttl=N                      a record has expired N nanoseconds after its last write
  tti=N                      a record has expired N nanoseconds after it was last seen or written
  listener                   a listener hears of each record that is replaced or taken out
  closures                   records may be invalidated by predicates
and each other line is an event:
  at MOMENT                  the clock moves on to the moment, in nanoseconds
  start get KEY              a call looks the key up
  start insert KEY VALUE     a call stores the value under the key
  start get_with KEY         a call looks the key up, and loads its value where there is none
  start get_with KEY if TEST the same, and loads it again where the test holds on the record found:
                             test 0 never, another where it divides the value
  start optional KEY         a call looks the key up, and loads its value, or finds that it has none
  start try KEY              a call looks the key up, and loads its value, or fails with an error
  start or_insert KEY VALUE  a call looks the key up, and stores the value where there is none
  start compute KEY          a call asks what is to be done with what the key has, and does it;
                             one of a key at a time
  start try_compute KEY      the same, and it may be told an error
  start compute_alone KEY    the same, but beside another that goes it only answers what is there
  start upsert KEY           a call asks for the key's next value, and stores it
  start invalidate KEY       a call takes the key's record out
  start remove KEY           a call takes the key's record out, and answers its value
  start invalidate_all       a call hides all records that were written before the clock
  start invalidate_if TEST   a call registers a predicate: it hides each record on which the test
                             holds, but for those that are written later
  start iter                 a call walks: it gives the records that a look shows, one at a time
  start pending              a call maintains: it finishes what dropped calls left, applies the log,
                             and lets predicates go that hide nothing any more
  start evict KEY STAMP CAUSE
                             a call takes the key's record out, where it is the one of this stamp
                             and has to leave for this cause: Expired, Explicit, Replaced or Size
  step CALL                  the call makes one step
  poll CALL                  the call makes steps until it waits, asks, gives a record or answers
  tell CALL value VALUE      the open ask of the call is told the value of its load or upsert
  tell CALL nothing          the open ask of an optional is told that there is none
  tell CALL error ERROR      the open ask of a try, a try_compute or a compute_alone is told why it
                             fails
  tell CALL nop              the open ask of a compute is told to leave what is there
  tell CALL put VALUE        the same ask is told to store the value
  tell CALL remove           the same ask is told to take the record out
  tell CALL done             the open notice of this number ends: the listener has heard
  tell CALL off              the same, and the listener hears of no further record
  drop CALL                  the call is dropped where it stands
Keys, values and errors are below 2^32, moments, tests, stamps and calls below 2^64, all in
decimal.
Calls are numbered from 1, as they are started. A record's stamp is the call that wrote it.
No look shows a record that has expired or is hidden; it stays stored until a call takes it out.
A call that waits is not woken: it is polled again.

A report is a line for each event, then for each stored record, ascending by key,
then for each committed write, ascending by number, with where it stands,
then for each notice, ascending by number, with how far it is,
then for each registered predicate, in order of registering, with its moment.

make runs N turns, from 1 to 200000, of the workload of SEED, which is below 2^64, on a cache of
log=64 ttl=2000 listener. It reads nothing. A turn moves the clock on by 10, and then looks one of
1000 keys up, inserts, loads it by two calls of which one is dropped, removes, or computes; after
each hundredth turn comes maintenance. The summary is twelve lines, each a word and a number:
  turns, events              how many turns there were, and how many events they had
  calls, answers, asks, waits, refused
                             how many replies were a call's number, an answer, an ask, a wait, or a
                             refusal
  entries                    how many records are stored
  owed, logged, applied      how many writes stand there
  notices                    how many notices there are, those that are due among them

behind writes to the cache first, and to a keeper later. Its lines:
  set KEY VALUE              the pair is stored, and is a write that is still to be sent
  del KEY                    the key is taken out, which is such a write too
  get KEY                    the key is looked up: in the cache, in what is to be sent, by the keeper
  shed                       the cache lets go of all that it stores
  drain                      the writes are sent to the keeper, in order
It replies done, some VALUE, none, shed N, drained N or fault; last comes unsent N.

memo evaluates rules that build on earlier ones, each once. Its lines, rules first:
  rule const N               a rule, numbered from 1, whose value is N
  rule add A B               one whose value comes of rules A and B: add, mul, min or max
  rule if A B C              one whose value is that of rule B where A's isn't 0, else that of C
  ask RULE                   a query asks for the rule's value
  turn QUERY                 the query takes one turn
  drop QUERY                 the query is dropped; a rule that it owned passes to one that waits
  finish                     all queries take turns until each has answered
It replies query Q, moved, wait RULE, value V, dropped, refused; answer Q V of each, then finished;
last comes known N.

gateway shares requests to an upstream. Its lines:
  open                       a client opens
  feed CLIENT BYTES          the client has sent these bytes, in which ; stands for a line feed
  reply KEY value VALUE      the upstream request of the key is answered by a value
  reply KEY error ERROR      it is answered by an error
  close CLIENT               the client closes
A client's line get KEY is a request, another is bad. gateway replies client C, closed or refused;
then up fetch KEY and up cancel KEY; then to CLIENT BYTES, the client's next replies, each value
VALUE, error ERROR or bad, and ;.

exit status: 0 done, 1 bad words, 2 bad line, 3 too long, 4 read fault,
             5 write fault, 6 memory; but at 0 a line on standard error says which

For example, printf 'cache\\nstart insert 1 5\\npoll 1\\n' | moka play writes
  call 1
  answer done
  entry 1 5 stamp 1 at 0
  write 1 logged
";

/// The text that the words ask for, where they ask for one.
pub fn told_text(words: &[String]) -> Option<&'static str> {
    match words {
        [word] => match word.as_str() {
            "--help" => Some(HELP),
            "--version" => Some(VERSION),
            _ => None,
        },
        _ => None,
    }
}
