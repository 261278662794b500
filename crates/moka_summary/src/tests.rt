//! A summary's text, and the counts that it tells.

use crate::{Summary, Tally, write_summary};
use moka_hist::{Answer, Ask, Refusal, Reply};

#[test]
fn a_summary_has_twelve_lines(rt: HostRuntime) {
    let replies: [Reply<u32, u32, u32>; 11] = [
        Reply::At,
        Reply::Call(1),
        Reply::Call(2),
        Reply::Ask(Ask::Init),
        Reply::Wait,
        Reply::Dropped,
        Reply::Ask(Ask::Init),
        Reply::Told,
        Reply::Answer(Answer::Loaded {
            value: 203,
            fresh: true,
        }),
        Reply::Refused(Refusal::NotAsked),
        Reply::Refused(Refusal::UnknownCall),
    ];
    let mut tally = Tally::new();
    for reply in &replies {
        if tally.events < 11 {
            tally.count(reply);
        }
    }
    let summary = Summary {
        turns: 1,
        replies: tally,
        entries: 1,
        owed: 0,
        logged: 1,
        applied: 0,
        notices: 0,
    };
    let text = write_summary(rt.alloc(), &summary).expect(&rt, "there is memory");
    let want = "turns 1\nevents 11\ncalls 2\nanswers 1\nasks 2\nwaits 1\nrefused 2\nentries 1\n\
        owed 0\nlogged 1\napplied 0\nnotices 0\n";
    assert_eq!(rt; text.as_slice(), want.as_bytes());
}
