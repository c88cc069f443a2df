// What aliases mean.
ghost use Rattle.std.specs.Prelude.{codes};
ghost use Rattle.asm_words.specs.Aliases.{IsBare, IsBranch, IsLoad, IsStore, IsTwice};

/// An alias means what its long form means, whatever its operand is: a law about what `encode` is proved to compute.
pub fn alias_law()
    ensures sei { IsBare (codes "sei") (codes "bset") (codes "7") }
    ensures cli { IsBare (codes "cli") (codes "bclr") (codes "7") }
    ensures brcs { IsBranch (codes "brcs") (codes "brbs") (codes "0") }
    ensures brcc { IsBranch (codes "brcc") (codes "brbc") (codes "0") }
    ensures breq { IsBranch (codes "breq") (codes "brbs") (codes "1") }
    ensures brne { IsBranch (codes "brne") (codes "brbc") (codes "1") }
    ensures clr { IsTwice (codes "clr") (codes "eor") }
    ensures tst { IsTwice (codes "tst") (codes "and") }
    ensures lsl { IsTwice (codes "lsl") (codes "add") }
    ensures rol { IsTwice (codes "rol") (codes "adc") }
    ensures ld_y { IsLoad (codes "Y") (codes "Y+0") }
    ensures ld_z { IsLoad (codes "Z") (codes "Z+0") }
    ensures st_y { IsStore (codes "Y") (codes "Y+0") }
    ensures st_z { IsStore (codes "Z") (codes "Z+0") }
{}
