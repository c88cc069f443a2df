// What follows from the definitions alone.
ghost use Rattle.std.specs.Prelude.{◌≡◌, ℕ, ◌≤◌, ◌+◌, [], ◌∷◌, ◌++◌, List, true, false, drop, length};
ghost use Rattle.world_core.specs.Sends.{sends_of};
ghost use Rattle.air_base.specs.declared.air.Send.{Send};
ghost use Rattle.air_sniffer.specs.declared.scan.TheConstants.{MOST_OPEN};
ghost use Rattle.air_sniffer.specs.Head.{send_at, begins_frame, is_open};
ghost use Rattle.air_sniffer.specs.Frames.{frame_of, frames};
ghost use Rattle.air_sniffer.specs.declared.frame.Frame.{Frame};
ghost use Rattle.air_sniffer.specs.Sniffed.{sure, open_part, SnifferFacts, sniffer_of, line_of, fed, IsFed, sniffed, joined};

/// The frames of a list of sends: none of no sends; where a frame's bytes begin the list that frame, and then the
/// frames of the rest behind it; else the frames of the list without its first send.
pub fn frames_law()
    ensures none { frames [] ≡ [] }
    ensures frame { (l : List Send) → begins_frame l ≡ true → frames l ≡ frame_of l ∷ frames (drop (4 + (send_at l 3).byte) l) }
    ensures other { (x : Send) (l : List Send) → begins_frame (x ∷ l) ≡ false → frames (x ∷ l) ≡ frames l }
{}

/// What more sends can change. A list that is open begins with no frame, and some sends behind it make one; one that is
/// not begins as it does whatever comes.
pub fn open_law()
    ensures none { (l : List Send) → is_open l ≡ true → begins_frame l ≡ false }
    ensures some { (l : List Send) → is_open l ≡ true → (m : List Send) × (begins_frame (l ++ m) ≡ true) }
    ensures same { (l m : List Send) → is_open l ≡ false → begins_frame (l ++ m) ≡ begins_frame l }
    ensures short { (l : List Send) → is_open l ≡ true → length l ≤ MOST_OPEN }
{}

/// Whatever comes behind a list of sends: its sure frames are the first ones, and its open part is all that has to be
/// held.
pub fn cut_law()
    ensures frames { (l m : List Send) → frames (l ++ m) ≡ sure l ++ frames (open_part l ++ m) }
    ensures sure { (l m : List Send) → sure (l ++ m) ≡ sure l ++ sure (open_part l ++ m) }
    ensures rest { (l m : List Send) → open_part (l ++ m) ≡ open_part (open_part l ++ m) }
    ensures short { (l : List Send) → length (open_part l) ≤ MOST_OPEN }
{}

/// How a caller goes on: nothing was fed at first; a piece that is fed, and the frames that it gives, go behind what
/// was fed and given before; with the frames that `finish` gives they are the frames of all sends of the node.
pub fn fed_law()
    ensures start { (node : ℕ) → IsFed (sniffer_of node []) [] [] }
    ensures more { (s : SnifferFacts) (all piece : List Send) (gave : List Frame) → IsFed s all gave → IsFed (fed s piece) (all ++ piece) (gave ++ sure (line_of s piece)) }
    ensures finish { (s : SnifferFacts) (all : List Send) (gave : List Frame) → IsFed s all gave → gave ++ frames s.held ≡ frames (sends_of s.node all) }
{}

/// For every cut of sends into pieces, a sniffer to which they are fed gives the frames of the node's sends of the
/// whole.
pub fn pieces_law()
    ensures { (node : ℕ) (pieces : List (List Send)) → sniffed (sniffer_of node []) pieces ≡ frames (sends_of node (joined pieces)) }
{}
