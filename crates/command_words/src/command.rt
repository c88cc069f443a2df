// What a command line asks for.

/// What an accepted command line asks for. The file's name is the word itself.
#[derive(Clone, Copy)]
pub enum Command<'w> {
    /// `node FILE CYCLES`: simulate one node with this image for so many cycles, 1 to 10,000,000.
    Node {
        file: &'w str,
        cycles: u64,
    },
    /// `run FILE`: simulate the network of this scenario.
    Run {
        file: &'w str,
    },
    /// `run --plain FILE`: simulate the network of this scenario on one thread.
    RunPlain {
        file: &'w str,
    },
    /// `check FILE`: read this scenario and its images, and run nothing.
    Check {
        file: &'w str,
    },
    /// `disasm FILE`: list the instructions of this image.
    Disasm {
        file: &'w str,
    },
    /// `asm FILE`: write the program of this source in assembly as an image.
    Asm {
        file: &'w str,
    },
    /// `monitor FILE`: simulate the network of this scenario, and write on what its nodes spent the window.
    Monitor {
        file: &'w str,
    },
    /// `sniff FILE`: simulate the network of this scenario, and write the frames that its nodes sent.
    Sniff {
        file: &'w str,
    },
    /// `make NUMBER`: simulate the sample network of this number, and count what came out.
    Make {
        number: u16,
    },
    /// `head FILE N`: simulate the first epochs of the network of this scenario, 1 to 9,999,999.
    Head {
        file: &'w str,
        epochs: u64,
    },
    /// `save FILE N`: simulate the first epochs of the network of this scenario, 1 to 9,999,999, and write the state in
    /// which it is then.
    Save {
        file: &'w str,
        epochs: u64,
    },
    /// `resume FILE STATE`: simulate the network of this scenario from the state in this file on.
    Resume {
        file: &'w str,
        state: &'w str,
    },
    /// `head FILE N STATE`: simulate so many epochs of the network of this scenario, 1 to 9,999,999, from the state in
    /// this file on.
    HeadOn {
        file: &'w str,
        epochs: u64,
        state: &'w str,
    },
    /// `save FILE N STATE`: simulate so many epochs of the network of this scenario, 1 to 9,999,999, from the state in
    /// this file on, and write the state in which it is then.
    SaveOn {
        file: &'w str,
        epochs: u64,
        state: &'w str,
    },
    /// `monitor FILE FROM TO`: simulate the network of this scenario, and write on what its nodes spent the cycles from
    /// one on and below another, which is not the lower one; both at most 1,099,511,627,776.
    MonitorSpan {
        file: &'w str,
        from: u64,
        to: u64,
    },
    /// `look FILE CYCLE`: simulate the network of this scenario up to a cycle, at most 1,099,511,627,776, and write the
    /// state in which it is as that cycle begins.
    Look {
        file: &'w str,
        cycle: u64,
    },
    /// `look FILE CYCLE STATE`: simulate the network of this scenario from the state in this file on up to a cycle, at
    /// most 1,099,511,627,776, and write the state in which it is as that cycle begins.
    LookOn {
        file: &'w str,
        cycle: u64,
        state: &'w str,
    },
    /// `sweep FILE STATE MOVES`: simulate the network of this scenario from the state in the second file on, once for
    /// each line of the third one, with the input that the line says in place of that of a node.
    Sweep {
        file: &'w str,
        state: &'w str,
        moves: &'w str,
    },
    /// `watch FILE FROM TO PLACES`: simulate the network of this scenario up to a cycle, and write what is seen at the
    /// places of the second file in the cycles from another one on, which is not the higher one; both at most
    /// 1,099,511,627,776.
    Watch {
        file: &'w str,
        from: u64,
        to: u64,
        places: &'w str,
    },
    /// `watch FILE FROM TO PLACES STATE`: the same from the state in the third file on.
    WatchOn {
        file: &'w str,
        from: u64,
        to: u64,
        places: &'w str,
        state: &'w str,
    },
    /// `watch FILE FROM TO PLACES STATE MOVES`: the same once for each line of the fourth file, with the input that the
    /// line says in place of that of a node.
    WatchSweep {
        file: &'w str,
        from: u64,
        to: u64,
        places: &'w str,
        state: &'w str,
        moves: &'w str,
    },
}
