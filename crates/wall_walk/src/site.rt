// A wall of players with the channel that their requests go through, by value.
use ring::DESCRIPTOR_DWORDS;
use side::STATE_WORDS;
use stage::Wall;

#[derive(Drop)]
pub(crate) struct Site {
    pub wall: Wall,
    pub sender: [u32; STATE_WORDS],
    pub desc: [u32; DESCRIPTOR_DWORDS],
    pub buf: [u32; 1024],
}

// A channel just opened, and a wall with nothing open.
pub(crate) fn fresh() -> Site {
    let mut sender = [0; STATE_WORDS];
    let mut receiver = [0; STATE_WORDS];
    let mut desc = [0; DESCRIPTOR_DWORDS];
    let buf = [0; 1024];
    let _ = side::open_channel(&mut sender, &mut receiver, &mut desc, &buf);
    Site {
        wall: stage::fresh_wall(),
        sender,
        desc,
        buf,
    }
}
