// The scenes, each on a wall and a channel of its own.
use crate::calls::{
    age, busy, event, failure, retry, ring, send, send_fast, success, table, with_wall,
};
use crate::site::{Site, fresh};
use requests::Record;
use stage::Wall;
use std::io;

// Three requests, answered last first, and two replies that belong to none.
pub(crate) fn out_of_order(rt: &impl Print) -> io::Result<()> {
    println!(rt; "\nReplies out of order, and two that belong to no request")?;
    let s = send(rt, fresh(), 501, 2)?;
    let s = send(rt, s, 502, 2)?;
    let s = send(rt, s, 503, 2)?;
    ring(rt, &s)?;
    let s = success(rt, s, 2)?;
    let s = failure(rt, s, 0)?;
    let s = success(rt, s, 0)?;
    let s = event(rt, s, 1)?;
    table(rt, &s)
}

// A player that is busy three times, and one that is told to try again.
pub(crate) fn busy_and_retry(rt: &impl Print) -> io::Result<()> {
    println!(rt; "\nBusy three times, and one told to try again")?;
    let s = send(rt, fresh(), 501, 8)?;
    let s = send(rt, s, 502, 2)?;
    let s = busy(rt, s, 0)?;
    let s = retry(rt, s, 1)?;
    let s = busy(rt, s, 0)?;
    let s = send(rt, s, 502, 2)?;
    let s = busy(rt, s, 0)?;
    table(rt, &s)?;
    success(rt, s, 0)?;
    Ok(())
}

// Four more requests, each answered at once.
fn four_more(rt: &impl Print, s: Site) -> io::Result<Site> {
    let s = success(rt, send(rt, s, 502, 2)?, 1)?;
    let s = success(rt, send(rt, s, 503, 2)?, 2)?;
    let s = success(rt, send(rt, s, 504, 2)?, 3)?;
    success(rt, send(rt, s, 505, 2)?, 4)
}

// A request that nobody answers while others come and go: its age shows it.
pub(crate) fn left_behind(rt: &impl Print) -> io::Result<()> {
    println!(rt; "\nOne request stays open, and grows old")?;
    let s = send(rt, fresh(), 501, 2)?;
    age(rt, &s, 0)?;
    let s = four_more(rt, s)?;
    table(rt, &s)?;
    age(rt, &s, 0)
}

// A wall that has given out 65,534: the next fences are 65,535 and 0, and 1 is still open.
pub(crate) fn around_the_end(rt: &impl Print) -> io::Result<()> {
    println!(rt; "\nAfter fence 65535 comes 0; a fence that is still open is skipped")?;
    let started = send(rt, send(rt, fresh(), 500, 2)?, 501, 2)?;
    let late = success(rt, started, 0)?;
    println!(rt; "Much later, when the last fence given out is 65534:")?;
    let wall = Wall {
        table: late.wall.table,
        words: [65534, stage::REPLY_N],
    };
    let s = with_wall(&late, wall);
    let s = send(rt, s, 502, 2)?;
    let s = send(rt, s, 503, 2)?;
    let s = send(rt, s, 504, 2)?;
    table(rt, &s)?;
    age(rt, &s, 65535)
}

// Answers of 256, 256, 256 and 255 dwords fill a reply buffer of 1,024: the next request waits for a reply.
pub(crate) fn want_of_room(rt: &impl Print) -> io::Result<()> {
    println!(rt; "\nNo room for one more answer, until a reply has come")?;
    let s = send(rt, send(rt, fresh(), 501, 256)?, 502, 256)?;
    let s = send(rt, send(rt, s, 503, 256)?, 504, 255)?;
    let s = send(rt, s, 505, 1)?;
    let s = busy(rt, s, 1)?;
    let s = send(rt, s, 505, 1)?;
    let s = success(rt, s, 1)?;
    let s = send(rt, s, 505, 1)?;
    table(rt, &s)
}

// A table that is full, and one that something else has written to.
pub(crate) fn spoilt(rt: &impl Print) -> io::Result<()> {
    println!(rt; "\nA full table, and one in which a fence is open twice")?;
    let s = send(rt, send(rt, send(rt, fresh(), 501, 2)?, 502, 2)?, 503, 2)?;
    let s = send(rt, send(rt, send(rt, s, 504, 2)?, 505, 2)?, 506, 2)?;
    let s = send(rt, s, 507, 2)?;
    let mut t = s.wall.table;
    t[5] = Record {
        is_open: 1,
        fence: 0,
        action: 506,
        count: 0,
        room: 2,
    };
    let words = s.wall.words;
    let spoilt = with_wall(&s, Wall { table: t, words });
    success(rt, send(rt, spoilt, 507, 2)?, 0)?;
    Ok(())
}

// The wall as it is, over a reply buffer of n dwords.
fn over(s: &Site, n: u16) -> Site {
    let wall = Wall {
        table: s.wall.table,
        words: [s.wall.words[0], n],
    };
    with_wall(s, wall)
}

// The site with a STATUS that says the ring is broken.
fn broken(s: &Site) -> Site {
    let wall = Wall {
        table: s.wall.table,
        words: s.wall.words,
    };
    let mut other = with_wall(s, wall);
    other.desc[2] = 8;
    other
}

// What the wall refuses, and what the ring does: nothing is sent, and the next request has the fence that was due.
pub(crate) fn turned_away(rt: &impl Print) -> io::Result<()> {
    println!(rt; "\nTurned away by the wall, and by the ring")?;
    let s = send(rt, fresh(), 501, 2)?;
    println!(rt; "Over a reply buffer of 1000 dwords:")?;
    send(rt, over(&s, 1000), 502, 2)?;
    println!(rt; "Over the wall's own, of 1024:")?;
    let s = send(rt, s, 502, 257)?;
    let s = send_fast(rt, s, 502, 2)?;
    println!(rt; "With STATUS 8:")?;
    send(rt, broken(&s), 502, 2)?;
    println!(rt; "With STATUS 0 again:")?;
    let s = send(rt, s, 502, 2)?;
    table(rt, &s)
}
