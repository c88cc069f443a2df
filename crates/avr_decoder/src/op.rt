// Instructions and their classes.
use avr_base::{Reg, StopCause};

/// An instruction of the AVR core with its operands: one variant for each row of the opcode table (AVR Instruction Set
/// Manual, the sections "Opcode" of the instructions that the ATmega128 has).
///
/// The fields have the letters of the manual's patterns. `d` is the register that is read and written, `r` the one that
/// is read, of a pair the lower one. A `k` of a byte is a constant. An `a` is an I/O address, 0 to 63. A `b` is a bit
/// number and an `s` a flag number, 0 to 7. A `q` is a displacement in bytes, 0 to 63. A signed `k` is an offset in
/// words, and a `k` of 16 bits the instruction's second word: a data address in bytes, or of JMP and CALL a program
/// address in words.
#[derive(Clone, Copy)]
pub enum Op {
    /// Does nothing.
    Nop,
    /// Copies a pair of registers: `d` and `r` are the lower ones, even.
    Movw { d: Reg, r: Reg },
    /// Signed by signed product, of r16 to r31.
    Muls { d: Reg, r: Reg },
    /// Signed by unsigned product, of r16 to r23.
    Mulsu { d: Reg, r: Reg },
    /// Unsigned product shifted left by one, of r16 to r23.
    Fmul { d: Reg, r: Reg },
    /// Signed product shifted left by one, of r16 to r23.
    Fmuls { d: Reg, r: Reg },
    /// Signed by unsigned product shifted left by one, of r16 to r23.
    Fmulsu { d: Reg, r: Reg },
    /// Compares with the carry.
    Cpc { d: Reg, r: Reg },
    /// Subtracts with the carry.
    Sbc { d: Reg, r: Reg },
    /// Adds.
    Add { d: Reg, r: Reg },
    /// Skips the next instruction where the registers are equal.
    Cpse { d: Reg, r: Reg },
    /// Compares.
    Cp { d: Reg, r: Reg },
    /// Subtracts.
    Sub { d: Reg, r: Reg },
    /// Adds with the carry.
    Adc { d: Reg, r: Reg },
    /// Bitwise and.
    And { d: Reg, r: Reg },
    /// Bitwise exclusive or.
    Eor { d: Reg, r: Reg },
    /// Bitwise or.
    Or { d: Reg, r: Reg },
    /// Copies a register.
    Mov { d: Reg, r: Reg },
    /// Compares with a constant; `d` is r16 to r31.
    Cpi { d: Reg, k: u8 },
    /// Subtracts a constant with the carry; `d` is r16 to r31.
    Sbci { d: Reg, k: u8 },
    /// Subtracts a constant; `d` is r16 to r31.
    Subi { d: Reg, k: u8 },
    /// Bitwise or with a constant; `d` is r16 to r31.
    Ori { d: Reg, k: u8 },
    /// Bitwise and with a constant; `d` is r16 to r31.
    Andi { d: Reg, k: u8 },
    /// Loads from Z + q.
    LddZ { d: Reg, q: u8 },
    /// Loads from Y + q.
    LddY { d: Reg, q: u8 },
    /// Stores at Z + q.
    StdZ { q: u8, r: Reg },
    /// Stores at Y + q.
    StdY { q: u8, r: Reg },
    /// Loads from the data address in the second word.
    Lds { d: Reg, k: u16 },
    /// Loads from Z, then raises Z by one.
    LdZInc { d: Reg },
    /// Lowers Z by one, then loads from Z.
    LdZDec { d: Reg },
    /// Loads the byte of program memory at Z.
    LpmZ { d: Reg },
    /// Loads the byte of program memory at Z, then raises Z by one.
    LpmZInc { d: Reg },
    /// Loads the byte of program memory at RAMPZ:Z.
    ElpmZ { d: Reg },
    /// Loads the byte of program memory at RAMPZ:Z, then raises RAMPZ:Z by one.
    ElpmZInc { d: Reg },
    /// Loads from Y, then raises Y by one.
    LdYInc { d: Reg },
    /// Lowers Y by one, then loads from Y.
    LdYDec { d: Reg },
    /// Loads from X.
    LdX { d: Reg },
    /// Loads from X, then raises X by one.
    LdXInc { d: Reg },
    /// Lowers X by one, then loads from X.
    LdXDec { d: Reg },
    /// Pops a byte off the stack.
    Pop { d: Reg },
    /// Stores at the data address in the second word.
    Sts { k: u16, r: Reg },
    /// Stores at Z, then raises Z by one.
    StZInc { r: Reg },
    /// Lowers Z by one, then stores at Z.
    StZDec { r: Reg },
    /// Stores at Y, then raises Y by one.
    StYInc { r: Reg },
    /// Lowers Y by one, then stores at Y.
    StYDec { r: Reg },
    /// Stores at X.
    StX { r: Reg },
    /// Stores at X, then raises X by one.
    StXInc { r: Reg },
    /// Lowers X by one, then stores at X.
    StXDec { r: Reg },
    /// Pushes a byte on the stack.
    Push { r: Reg },
    /// Ones' complement.
    Com { d: Reg },
    /// Two's complement.
    Neg { d: Reg },
    /// Exchanges the halves of a byte.
    Swap { d: Reg },
    /// Raises by one.
    Inc { d: Reg },
    /// Shifts right, keeping bit 7.
    Asr { d: Reg },
    /// Shifts right.
    Lsr { d: Reg },
    /// Rotates right through the carry.
    Ror { d: Reg },
    /// Lowers by one.
    Dec { d: Reg },
    /// Sets flag `s` of SREG.
    Bset { s: u8 },
    /// Clears flag `s` of SREG.
    Bclr { s: u8 },
    /// Jumps to Z.
    Ijmp,
    /// Calls the subroutine at Z.
    Icall,
    /// Returns from a subroutine.
    Ret,
    /// Returns from an interrupt.
    Reti,
    /// Sleeps, where sleep is enabled.
    Sleep,
    /// The debugger's instruction.
    Break,
    /// Resets the watchdog.
    Wdr,
    /// Loads the byte of program memory at Z into r0.
    LpmR0,
    /// Loads the byte of program memory at RAMPZ:Z into r0.
    ElpmR0,
    /// Self-programming.
    Spm,
    /// Jumps to the word address in the second word.
    Jmp { k: u16 },
    /// Calls the subroutine at the word address in the second word.
    Call { k: u16 },
    /// Adds a constant to the pair at `d`, which is r24, r26, r28 or r30.
    Adiw { d: Reg, k: u8 },
    /// Subtracts a constant from the pair at `d`, which is r24, r26, r28 or r30.
    Sbiw { d: Reg, k: u8 },
    /// Clears a bit of an I/O register.
    Cbi { a: u8, b: u8 },
    /// Skips the next instruction where a bit of an I/O register is clear.
    Sbic { a: u8, b: u8 },
    /// Sets a bit of an I/O register.
    Sbi { a: u8, b: u8 },
    /// Skips the next instruction where a bit of an I/O register is set.
    Sbis { a: u8, b: u8 },
    /// Unsigned product.
    Mul { d: Reg, r: Reg },
    /// Reads an I/O register.
    InIo { d: Reg, a: u8 },
    /// Writes an I/O register.
    OutIo { a: u8, r: Reg },
    /// Jumps by `k` words from the next word, -2048 to 2047.
    Rjmp { k: i16 },
    /// Calls the subroutine `k` words from the next word, -2048 to 2047.
    Rcall { k: i16 },
    /// Loads a constant; `d` is r16 to r31.
    Ldi { d: Reg, k: u8 },
    /// Branches by `k` words from the next word, -64 to 63, where flag `s` is set.
    Brbs { s: u8, k: i16 },
    /// Branches by `k` words from the next word, -64 to 63, where flag `s` is clear.
    Brbc { s: u8, k: i16 },
    /// Copies flag T to bit `b`.
    Bld { d: Reg, b: u8 },
    /// Copies bit `b` to flag T.
    Bst { d: Reg, b: u8 },
    /// Skips the next instruction where bit `b` is clear.
    Sbrc { r: Reg, b: u8 },
    /// Skips the next instruction where bit `b` is set.
    Sbrs { r: Reg, b: u8 },
    /// No instruction has this first word.
    Reserved { word: u16 },
    /// An instruction whose result the manual leaves undefined, as `ld r26, X+`, by its first word.
    Undefined { word: u16 },
}

/// Which part of the processor executes an instruction.
#[derive(Clone, Copy)]
pub enum Class {
    /// It works on registers and flags alone.
    Arith,
    /// It may go on elsewhere than at the next word: skips, branches, jumps, calls and returns; and SLEEP.
    Flow,
    /// It reads or writes the data space or program memory.
    Memory,
    /// It stops the node, for this cause.
    Halting(StopCause),
}
