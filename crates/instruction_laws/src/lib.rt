//! What instructions mean beyond their tables: comparisons and the branches behind them, sums and differences of bytes
//! and of words, what comes back from the stack, and how many words an instruction takes. Each law is the contract of a
//! function that does nothing; it is about the definitions that the steps are proved to compute.
#![tactic(auto)]

ghost use Rattle.std.specs.Prelude.{◌≡◌, ◌≢◌, ℕ, ◌+◌, ◌-◌, ◌*◌, ◌%◌, ◌≤◌, ◌<◌, nat_le, nat_lt, int_lt, not, ◌==◌, ℤ, Bool, true, List, Ok, if◌then◌else◌};
ghost use Rattle.avr_decoder.specs.Opcodes.{op_at};
ghost use Rattle.avr_decoder.specs.Words.{is_two_words, words_of};
ghost use Rattle.avr_decoder.specs.declared.op.Op.TheVariants as op;
ghost use Rattle.avr_base.specs.Flags.{C, H, S, Z, has_flag};
ghost use Rattle.avr_core.specs.ArithTable.{arith_cpu};
ghost use Rattle.data_space.specs.declared.cpu.Cpu.{Cpu};
ghost use Rattle.instruction_laws.specs.Branches.{AreApart, AreBytes, IsCompared, IsCore, both, branches, reg, word, word_in};
ghost use Rattle.data_space.specs.Core.{advanced, with_reg};
ghost use Rattle.arith_step.specs.Whole.{signed};
ghost use Rattle.avr_core.specs.FlowTable.{flow_effect};
ghost use Rattle.avr_core.specs.MemoryTable.{memory_effect};
ghost use Rattle.instruction_laws.specs.Carries.{IsAdded, IsOrdered, IsTaken, carried};
ghost use Rattle.instruction_laws.specs.Stack.{Accesses, ComesBack, IsMemory, IsStack, TakesReturn, ended, then_memory};
ghost use Rattle.instruction_laws.specs.Sram.{HasStack, NodeComesBack, has_sram, is_sram, node_accesses, sram_first, sram_last, then_executed, with_byte};
ghost use Rattle.board_io.specs.declared.clocked.ClockedBoard.{ClockedBoard};
ghost use Rattle.node_core.specs.declared.bus.NodeBus.{NodeBus};
ghost use Rattle.node_core.specs.Bus.{bus_put, with_io};
ghost use Rattle.node_core.specs.Cycle.{begun_in, finished_in};
ghost use Rattle.node_core.specs.Execute.{executed};
ghost use Rattle.node_core.specs.State.{NodeState, reset};
ghost use Rattle.serial_ports.specs.Script.{ScriptBytes};
ghost use Rattle.air_base.specs.declared.air.Heard.{Heard};

/// After CP, and after CPI, the flags compare the two bytes.
pub fn compare_law()
    ensures registers { (d r : ℕ) (cpu : Cpu) → AreBytes (reg d cpu) (reg r cpu)
        → IsCompared 128 (reg d cpu) (reg r cpu) (arith_cpu (op.Cp d r) cpu) }
    ensures constant { (d k : ℕ) (cpu : Cpu) → AreBytes (reg d cpu) k
        → IsCompared 128 (reg d cpu) k (arith_cpu (op.Cpi d k) cpu) }
{}

/// After CP of the low bytes and CPC of the high ones, and after CPI and SBCI, the flags compare the two words.
pub fn compare_words_law()
    ensures registers { (dl dh rl rh : ℕ) (cpu : Cpu) → AreBytes (reg dl cpu) (reg rl cpu) → AreBytes (reg dh cpu) (reg rh cpu)
        → IsCompared 32768 (word_in dl dh cpu) (word_in rl rh cpu) (both (op.Cp dl rl) (op.Cpc dh rh) cpu) }
    ensures constant { (dl dh kl kh : ℕ) (cpu : Cpu) → AreBytes (reg dl cpu) kl → AreBytes (reg dh cpu) kh
        → IsCompared 32768 (word_in dl dh cpu) (word kl kh) (both (op.Cpi dl kl) (op.Sbci dh kh) cpu) }
{}

/// Where the flags compare two numbers, the branches go by the numbers: BRLO and BRSH, BREQ and BRNE, BRLT and BRGE.
pub fn branch_law<B>()
    ensures lower { (a : Accesses B) (flash : List ℕ) (half m n : ℕ) (k : ℤ) (cpu : Cpu) (bus : B) → IsCompared half m n cpu
        → flow_effect a.get a.put flash (op.Brbs C k) cpu bus ≡ branches (nat_lt m n) k cpu bus }
    ensures same_or_higher { (a : Accesses B) (flash : List ℕ) (half m n : ℕ) (k : ℤ) (cpu : Cpu) (bus : B) → IsCompared half m n cpu
        → flow_effect a.get a.put flash (op.Brbc C k) cpu bus ≡ branches (not (nat_lt m n)) k cpu bus }
    ensures equal { (a : Accesses B) (flash : List ℕ) (half m n : ℕ) (k : ℤ) (cpu : Cpu) (bus : B) → IsCompared half m n cpu
        → flow_effect a.get a.put flash (op.Brbs Z k) cpu bus ≡ branches (m == n) k cpu bus }
    ensures not_equal { (a : Accesses B) (flash : List ℕ) (half m n : ℕ) (k : ℤ) (cpu : Cpu) (bus : B) → IsCompared half m n cpu
        → flow_effect a.get a.put flash (op.Brbc Z k) cpu bus ≡ branches (not (m == n)) k cpu bus }
    ensures less { (a : Accesses B) (flash : List ℕ) (half m n : ℕ) (k : ℤ) (cpu : Cpu) (bus : B) → IsCompared half m n cpu
        → flow_effect a.get a.put flash (op.Brbs S k) cpu bus ≡ branches (int_lt (signed half m) (signed half n)) k cpu bus }
    ensures greater_or_equal { (a : Accesses B) (flash : List ℕ) (half m n : ℕ) (k : ℤ) (cpu : Cpu) (bus : B) → IsCompared half m n cpu
        → flow_effect a.get a.put flash (op.Brbc S k) cpu bus ≡ branches (not (int_lt (signed half m) (signed half n))) k cpu bus }
{}

/// ADD of the low bytes and ADC of the high ones give the sum of the two words modulo 65,536, and C where it does not
/// fit. The sum's low byte goes to a register that ADC does not read.
pub fn sum_law()
    ensures sum { (dl dh rl rh : ℕ) (cpu : Cpu) → IsCore cpu → AreApart dl dh → dl ≢ rh
        → word_in dl dh (both (op.Add dl rl) (op.Adc dh rh) cpu) ≡ (word_in dl dh cpu + word_in rl rh cpu) % 65536 }
    ensures carry { (dl dh rl rh : ℕ) (cpu : Cpu) → IsCore cpu → AreApart dl dh → dl ≢ rh
        → has_flag (both (op.Add dl rl) (op.Adc dh rh) cpu).sreg.bits C ≡ nat_le 65536 (word_in dl dh cpu + word_in rl rh cpu) }
{}

/// SUB of the low bytes and SBC of the high ones, and SUBI and SBCI, give the difference of the two words modulo
/// 65,536, and the flags compare them.
pub fn difference_law()
    ensures registers { (dl dh rl rh : ℕ) (cpu : Cpu) → IsCore cpu → AreApart dl dh → dl ≢ rh
        → word_in dl dh (both (op.Sub dl rl) (op.Sbc dh rh) cpu) ≡ (word_in dl dh cpu + 65536 - word_in rl rh cpu) % 65536 }
    ensures compared { (dl dh rl rh : ℕ) (cpu : Cpu) → IsCore cpu → AreApart dl dh → dl ≢ rh
        → IsCompared 32768 (word_in dl dh cpu) (word_in rl rh cpu) (both (op.Sub dl rl) (op.Sbc dh rh) cpu) }
    ensures constant { (dl dh kl kh : ℕ) (cpu : Cpu) → IsCore cpu → AreBytes kl kh → AreApart dl dh
        → word_in dl dh (both (op.Subi dl kl) (op.Sbci dh kh) cpu) ≡ (word_in dl dh cpu + 65536 - word kl kh) % 65536 }
{}

/// After ADD and ADC, C says that the sum of the two bytes, and of the carry that ADC finds, does not fit a byte, and H
/// that the sum of their low halves does not fit a half.
pub fn carry_law()
    ensures add { (d r : ℕ) (cpu : Cpu) → IsAdded (reg d cpu) (reg r cpu) 0 (arith_cpu (op.Add d r) cpu) }
    ensures add_with_carry { (d r : ℕ) (cpu : Cpu) → IsAdded (reg d cpu) (reg r cpu) (carried cpu) (arith_cpu (op.Adc d r) cpu) }
{}

/// After SUB, SUBI, CP and CPI, C says that the one byte is below the other, and H that its low half is; after SBC,
/// SBCI and CPC, that it is below the other and the borrow that they find. NEG takes from 0: C where the byte is not 0.
pub fn borrow_law()
    ensures subtract { (d r : ℕ) (cpu : Cpu) → IsTaken (reg d cpu) (reg r cpu) 0 (arith_cpu (op.Sub d r) cpu) }
    ensures subtract_constant { (d k : ℕ) (cpu : Cpu) → IsTaken (reg d cpu) k 0 (arith_cpu (op.Subi d k) cpu) }
    ensures compare { (d r : ℕ) (cpu : Cpu) → IsTaken (reg d cpu) (reg r cpu) 0 (arith_cpu (op.Cp d r) cpu) }
    ensures compare_constant { (d k : ℕ) (cpu : Cpu) → IsTaken (reg d cpu) k 0 (arith_cpu (op.Cpi d k) cpu) }
    ensures with_borrow { (d r : ℕ) (cpu : Cpu) → IsTaken (reg d cpu) (reg r cpu) (carried cpu) (arith_cpu (op.Sbc d r) cpu) }
    ensures constant_with_borrow { (d k : ℕ) (cpu : Cpu) → IsTaken (reg d cpu) k (carried cpu) (arith_cpu (op.Sbci d k) cpu) }
    ensures compare_with_borrow { (d r : ℕ) (cpu : Cpu) → IsTaken (reg d cpu) (reg r cpu) (carried cpu) (arith_cpu (op.Cpc d r) cpu) }
    ensures negate { (d : ℕ) (cpu : Cpu) → IsTaken 0 (reg d cpu) 0 (arith_cpu (op.Neg d) cpu) }
{}

/// ADIW and SBIW give the sum and the difference of the word in a pair and a constant, modulo 65,536. After ADIW C says
/// that the sum does not fit 16 bits; after SBIW the flags compare the word with the constant, so C says that it is
/// below. H stays.
pub fn pair_law()
    ensures sum { (d k : ℕ) (cpu : Cpu) → IsCore cpu → d < 31
        → word_in d (d + 1) (arith_cpu (op.Adiw d k) cpu) ≡ (word_in d (d + 1) cpu + k) % 65536 }
    ensures carry { (d k : ℕ) (cpu : Cpu) → d < 31
        → has_flag (arith_cpu (op.Adiw d k) cpu).sreg.bits C ≡ nat_le 65536 (word_in d (d + 1) cpu + k) }
    ensures difference { (d k : ℕ) (cpu : Cpu) → IsCore cpu → d < 31
        → word_in d (d + 1) (arith_cpu (op.Sbiw d k) cpu) ≡ (word_in d (d + 1) cpu + 65536 - k) % 65536 }
    ensures compared { (d k : ℕ) (cpu : Cpu) → IsCore cpu → d < 31 → k < 64
        → IsCompared 32768 (word_in d (d + 1) cpu) k (arith_cpu (op.Sbiw d k) cpu) }
    ensures half_after_sum { (d k : ℕ) (cpu : Cpu) → has_flag (arith_cpu (op.Adiw d k) cpu).sreg.bits H ≡ has_flag cpu.sreg.bits H }
    ensures half_after_difference { (d k : ℕ) (cpu : Cpu) → has_flag (arith_cpu (op.Sbiw d k) cpu).sreg.bits H ≡ has_flag cpu.sreg.bits H }
{}

/// Numbers of any length, byte by byte. Where C says that the sum of what lies below does not fit there, it says after
/// ADC of the bytes above that the longer sum does not fit. Where C and Z compare what lies below, the flags compare the
/// longer numbers after SBC, SBCI and CPC of the bytes above, S in two's complement.
pub fn longer_law()
    ensures sum { (m a b d r : ℕ) (cpu : Cpu) → a < m → b < m → has_flag cpu.sreg.bits C ≡ nat_le m (a + b)
        → has_flag (arith_cpu (op.Adc d r) cpu).sreg.bits C ≡ nat_le (m * 256) (a + m * reg d cpu + (b + m * reg r cpu)) }
    ensures difference { (m a b d r : ℕ) (cpu : Cpu) → a < m → b < m → AreBytes (reg d cpu) (reg r cpu) → IsOrdered a b cpu
        → IsCompared (m * 128) (a + m * reg d cpu) (b + m * reg r cpu) (arith_cpu (op.Sbc d r) cpu) }
    ensures constant { (m a b d k : ℕ) (cpu : Cpu) → a < m → b < m → AreBytes (reg d cpu) k → IsOrdered a b cpu
        → IsCompared (m * 128) (a + m * reg d cpu) (b + m * k) (arith_cpu (op.Sbci d k) cpu) }
    ensures compare { (m a b d r : ℕ) (cpu : Cpu) → a < m → b < m → AreBytes (reg d cpu) (reg r cpu) → IsOrdered a b cpu
        → IsCompared (m * 128) (a + m * reg d cpu) (b + m * reg r cpu) (arith_cpu (op.Cpc d r) cpu) }
{}

/// PUSH and then POP: the register has the byte that was pushed, and all else of the core is as before.
pub fn stack_law<B>()
    ensures { (a : Accesses B) (sound : B → Bool) (first last : ℕ) (flash : List ℕ) (r d : ℕ) (cpu : Cpu) (bus bus' : B)
        → IsStack a sound first last 1 cpu → sound bus ≡ true → a.put bus cpu.sp (reg r cpu) ≡ Ok bus'
        → then_memory a flash (op.Pop d) (memory_effect a.get a.put flash (op.Push r) cpu bus)
        ≡ ended 2 (advanced 2 (with_reg d (reg r cpu) cpu)) bus' }
{}

/// CALL, RCALL and ICALL, and then RET: the program goes on behind the call, and all else of the core is as before.
pub fn return_law<B>()
    ensures call { (a : Accesses B) (sound : B → Bool) (first last : ℕ) (flash : List ℕ) (k : ℕ) (cpu : Cpu) (bus mid bus' : B)
        → IsStack a sound first last 2 cpu → sound bus ≡ true → TakesReturn a 2 cpu bus mid bus' → ComesBack a flash (op.Call k) 2 cpu bus bus' }
    ensures relative { (a : Accesses B) (sound : B → Bool) (first last : ℕ) (flash : List ℕ) (k : ℤ) (cpu : Cpu) (bus mid bus' : B)
        → IsStack a sound first last 2 cpu → sound bus ≡ true → TakesReturn a 1 cpu bus mid bus' → ComesBack a flash (op.Rcall k) 1 cpu bus bus' }
    ensures indirect { (a : Accesses B) (sound : B → Bool) (first last : ℕ) (flash : List ℕ) (cpu : Cpu) (bus mid bus' : B)
        → IsStack a sound first last 2 cpu → sound bus ≡ true → TakesReturn a 1 cpu bus mid bus' → ComesBack a flash op.Icall 1 cpu bus bus' }
{}

/// The SRAM of a node is such a memory, from 0x0100 to 0x10FF, while it has its 4,096 bytes: what is stored at an
/// address is loaded from it, and the bytes at the others stay. A store there never stops. The SRAM has so many bytes
/// after reset, and still has them after each cycle, up to its sample of the air and from it on; in the code its type
/// says so of every node.
pub fn sram_law()
    ensures memory { IsMemory node_accesses has_sram sram_first sram_last }
    ensures stores { (bus : NodeBus) (at x : ℕ) → sram_first ≤ at → at ≤ sram_last → bus_put bus at x ≡ Ok (with_byte at x bus) }
    ensures reset { (k : ℕ) (flash : List ℕ) (script : ScriptBytes) (first last byte_time : ℕ) → is_sram (reset k flash script first last byte_time).sram ≡ true }
    ensures begun { (t : ℕ) (s : NodeState) → is_sram s.sram ≡ true → is_sram (begun_in t s).sram ≡ true }
    ensures finished { (t : ℕ) (s : NodeState) (h : Heard) → is_sram s.sram ≡ true → is_sram (finished_in t s h).sram ≡ true }
{}

/// The stack of a node, with the stack pointer in its SRAM and room for what is pushed: PUSH and then POP give a
/// register the byte that was pushed, and RET comes back behind CALL, RCALL and ICALL, whatever the devices do
/// meanwhile. All else of the core is as before, and what was pushed stays in the SRAM.
pub fn node_stack_law()
    ensures push { (flash : List ℕ) (r d : ℕ) (cpu : Cpu) (bus : NodeBus) (io : ClockedBoard) → has_sram bus ≡ true → HasStack 1 cpu
        → then_executed flash (op.Pop d) io (executed flash (op.Push r) cpu bus)
        ≡ ended 2 (advanced 2 (with_reg d (reg r cpu) cpu)) (with_io (with_byte cpu.sp (reg r cpu) bus) io) }
    ensures call { (flash : List ℕ) (k : ℕ) (cpu : Cpu) (bus : NodeBus) → has_sram bus ≡ true → HasStack 2 cpu
        → NodeComesBack flash (op.Call k) 2 cpu bus }
    ensures relative { (flash : List ℕ) (k : ℤ) (cpu : Cpu) (bus : NodeBus) → has_sram bus ≡ true → HasStack 2 cpu
        → NodeComesBack flash (op.Rcall k) 1 cpu bus }
    ensures indirect { (flash : List ℕ) (cpu : Cpu) (bus : NodeBus) → has_sram bus ≡ true → HasStack 2 cpu
        → NodeComesBack flash op.Icall 1 cpu bus }
{}

/// The words that the decoded instruction takes are those that its first word says.
pub fn words_law()
    ensures { (first next : ℕ) → words_of (op_at first next) ≡ (if is_two_words first then 2 else 1) }
{}
