// Images in which tids 2 and 3 wait for one event, at places of their own and at others.
use crate::whole::write_whole;
use image::fields::{PLACE, RECORD};
use image::stored::IMAGE;
use std::io;

pub(crate) fn write_waiters(rt: &impl Print, image: [u8; IMAGE]) -> io::Result<()> {
    for (name, second, third) in [
        ("two waiters for one event", 0, 1),
        ("two waiters, tid 3 before tid 2", 1, 0),
        ("two waiters, both first", 0, 0),
        ("two waiters, both second", 1, 1),
        ("two waiters, a gap between them", 0, 2),
        ("two waiters, a gap before them", 1, 2),
        ("two waiters, one past the last place", 0, 32),
    ] {
        let mut placed = image;
        placed[RECORD + PLACE] = second;
        placed[2 * RECORD + PLACE] = third;
        write_whole(rt, name, &mut placed)?;
    }
    Ok(())
}
