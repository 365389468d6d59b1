// Every instruction, by a call or two each: the state has PC at the address after and the mode Running.
#![tactic(auto, unfolding(arith::specs::Flags::flag_of, crate::specs::Execute::exec_of, insn::specs::Shapes::shape_of))]

ghost use Rattle.std.specs.Prelude.{◌≡◌};
ghost use Rattle.machine.specs.Answers.{Gives, making};
ghost use Rattle.machine.specs.Execute.{done, exec_of};

use crate::{Cpu, Done, Ime, MEMORY_SIZE, Mode, loads};
use arith::{Flag, bytes, rotates, words};
use insn::Insn;

impl Cpu {
    // An instruction that is done, with no cycles beyond its own.
    pub(crate) fn done(self) -> Done
        ensures { result ≡ done self }
    {
        self.done_after(0)
    }

    // The instruction's first byte was read from the address own.
    // Stays: the state by value, handed back, is a rule of the project, so it and the memory lent are two parameters and no struct.
    // Stays: a read, an operation and a write by plain calls; as a method that takes the operation as a closure, proved too, a step of
    // the adding loop has 107.6 instructions for 86.3. The bar is `bench/run`: 2.50 times mGBA's bare core.
    pub(crate) fn execute(self, own: u16, i: Insn, mem: &mut [u8; MEMORY_SIZE]) -> Done
        ensures { Gives (making (exec_of own i self mem.old) mem.old) result mem.new }
    {
        match i {
            Insn::Nop => self.done(),
            Insn::StoreSp(w) => self.store_sp(w, mem).done(),
            Insn::Stop => self.with_mode(Mode::Stopped).done(),
            Insn::Jr(e) => self.jump_by(e).done(),
            Insn::JrIf(cc, e) => self.jump_by_if(cc, e),
            Insn::LoadPair(w, p) => self.with_pair(p, w).done(),
            Insn::AddHl(p) => self.add_hl(p).done(),
            Insn::StoreAt(p) => self.store_at(p, mem).done(),
            Insn::LoadAt(p) => self.load_at(p, mem).done(),
            Insn::IncPair(p) => self.with_pair(p, words::further(1, self.pair(p))).done(),
            Insn::DecPair(p) => self.with_pair(p, words::back(1, self.pair(p))).done(),
            Insn::Inc(p) => self
                .update(p, bytes::increase(self.held(p, mem), self.f), mem)
                .done(),
            Insn::Dec(p) => self
                .update(p, bytes::decrease(self.held(p, mem), self.f), mem)
                .done(),
            Insn::Load(p, o) => self.load(p, o, mem).done(),
            Insn::RotateA(op) => self.rotate_a(op).done(),
            Insn::Daa => self.adjust().done(),
            Insn::Cpl => self.complement().done(),
            Insn::Scf => self.with_carry(true).done(),
            Insn::Ccf => self.with_carry(!Flag::C.is_set(self.f)).done(),
            Insn::Halt => self.halt(own, mem).done(),
            Insn::Math(op, o) => self.math(op, o, mem).done(),
            Insn::RetIf(cc) => self.ret_if(cc, mem),
            Insn::StoreHigh(n) => self.store_a(loads::high(n), mem).done(),
            Insn::AddSp(e) => self.add_sp(e).done(),
            Insn::LoadHigh(n) => self.load_from(loads::high(n), mem).done(),
            Insn::LoadHlSp(e) => self.load_hl_sp(e).done(),
            Insn::Pop(p) => self.pop(p, mem).done(),
            Insn::Ret => self.ret(mem).done(),
            Insn::Reti => self.ret(mem).with_ime(Ime::On).done(),
            Insn::JumpHl => self.jump_hl().done(),
            Insn::LoadSpHl => self.load_sp_hl().done(),
            Insn::JumpIf(cc, w) => self.jump_if(cc, w),
            Insn::StoreHighC => self.store_a(loads::high(self.c), mem).done(),
            Insn::StoreTo(w) => self.store_a(w, mem).done(),
            Insn::LoadHighC => self.load_from(loads::high(self.c), mem).done(),
            Insn::LoadFrom(w) => self.load_from(w, mem).done(),
            Insn::Jump(w) => self.with_pc(w).done(),
            Insn::Rotate(op, p) => self
                .update(
                    p,
                    rotates::rotate(op, self.held(p, mem), Flag::C.is_set(self.f)),
                    mem,
                )
                .done(),
            Insn::Bit(k, p) => self.test(k, p, mem).done(),
            Insn::Res(k, p) => self
                .place(p, bytes::reset(k, self.held(p, mem)), mem)
                .done(),
            Insn::Set(k, p) => self.place(p, bytes::set(k, self.held(p, mem)), mem).done(),
            Insn::Di => self.with_ime(Ime::Off).done(),
            Insn::Ei => self.arm().done(),
            Insn::CallIf(cc, w) => self.call_if(cc, w, mem),
            Insn::Push(p) => self.push_pair(p, mem).done(),
            Insn::Call(w) => self.call(w, mem).done(),
            Insn::Rst(v) => self.call(u16::from(v), mem).done(),
            Insn::Undefined => self.done(),
        }
    }
}
