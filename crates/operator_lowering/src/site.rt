// The words of a site.

ghost use Rattle.std.specs.Prelude.{◌≡◌, ℕ, ◌+◌, ◌-◌, ◌≤◌, ◌<◌, [], ◌∷◌, ◌++◌, map, length, IsTrue, if◌then◌else◌};
ghost use Rattle.rv_encode.specs.Words.{encoded};
ghost use Rattle.template_runs.specs.Fitting.{are_fit};
ghost use Rattle.template_runs.specs.Renaming.{AreInRange, all_over};
ghost use Rattle.operator_meaning.specs.declared.site.Guard.TheVariants.{Kept, Gone};
ghost use Rattle.operator_lowering.specs.Template.{ArePlaces};
ghost use Rattle.operator_lowering.specs.Words.{is_small, constant_words, stop_words, stop_size, checked, checked_by, bound_of, bound_check, operator_words, site_words, is_in_place, front, copy};

use crate::assembly::words;
use crate::checks::{
    difference_check, difference_check_in_place, edge_check, is_small, opposite_check,
    product_check, quotient_check, sample_check, sample_words, stop_size, sum_check,
    sum_check_in_place, view_check,
};
use crate::operators::operator_words;
use crate::tables::halves::NEGATE_PLAIN;
use crate::tables::products::{DIVIDE, PRODUCT};
use crate::tables::sums::{DIFFERENCE, SUM};
use crate::way::{KEPT, Way};
use crate::words::Words;
use operator_meaning::{Form, Guard, Op, SiteKind};
use rv_encode::register::{A0, A7, T0, ZERO};
use rv_encode::{Instr, encode};
use template_runs::Registers;
use template_runs::registers::RESULT;

impl Words {
    // A register becomes a number of 32 bits.
    fn put_constant(&mut self, regs: Registers, rd: u8, number: u32)
        requires room { length self.old + 2 ≤ 96 }
        requires range { AreInRange regs }
        requires register { rd < 32 }
        ensures { self.new ≡ self.old ++ map encoded (all_over regs (constant_words (is_small number) rd number)) }
    {
        if is_small(number) {
            self.put(regs, &words![addi rd, ZERO, number as i32]);
        } else {
            let upper = ((u64::from(number) + 2048) / 4096 % 0x10_0000) as u32;
            let lower = ((u64::from(number) + 2048) % 4096) as i32 - 2048;
            self.put(regs, &words![lui rd, upper; addi rd, rd, lower]);
        }
    }

    // The machine stops at a site.
    fn put_stop(&mut self, regs: Registers, site: u32)
        requires room { length self.old + 4 ≤ 96 }
        requires range { AreInRange regs }
        ensures { self.new ≡ self.old ++ map encoded (all_over regs (stop_words (is_small site) site)) }
    {
        self.put_constant(regs, A0, site);
        self.put(regs, &words![addi A7, ZERO, 5; ecall]);
    }

    // A check, and the stop over which it jumps.
    fn put_checked(&mut self, regs: Registers, check: &[Instr], site: u32)
        requires room { length self.old + length check.now ≤ 92 }
        requires range { AreInRange regs }
        requires fit { IsTrue (are_fit check.now) }
        ensures { self.new ≡ self.old ++ map encoded (all_over regs (check.now ++ stop_words (is_small site) site)) }
    {
        self.put(regs, check);
        self.put_stop(regs, site);
    }

    // An index below a bound, and the stop over which the check jumps.
    fn put_bounded(&mut self, regs: Registers, bound: u32, site: u32)
        requires room { length self.old ≤ 80 }
        requires range { AreInRange regs }
        ensures { let n = bound_of bound in self.new ≡ self.old ++ map encoded (all_over regs (checked (bound_check (is_small n) n) site)) }
    {
        self.put_constant(regs, T0, bound.min(0x8000_0000));
        let distance = i32::from(stop_size(site)) + 4;
        self.put(regs, &words![bltu RESULT, T0, distance]);
        self.put_stop(regs, site);
    }

    fn put_operator(&mut self, regs: Registers, op: Op, form: Form)
        requires room { length self.old ≤ 1 }
        requires range { AreInRange regs }
        ensures { self.new ≡ self.old ++ map encoded (all_over regs (operator_words op form (is_in_place regs))) }
    {
        let (first, rest) = operator_words(op, form, regs.result == regs.second);
        self.put(regs, first);
        self.put(regs, rest);
    }

    // The words of a site that may stop.
    fn put_kept(&mut self, regs: Registers, kind: SiteKind, form: Form, site: u32)
        requires room { length self.old ≤ 1 }
        requires range { AreInRange regs }
        ensures { self.new ≡ self.old ++ map encoded (all_over regs (site_words kind form Kept (is_in_place regs) site)) }
    {
        let size = stop_size(site);
        let in_place = regs.result == regs.second;
        match kind {
            SiteKind::Call(Op::DivS) => {
                self.put_checked(regs, &quotient_check(size), site);
                self.put(regs, &DIVIDE);
            }
            SiteKind::Call(op) => self.put_operator(regs, op, form),
            SiteKind::Sum if in_place => self.put_checked(regs, &sum_check_in_place(size), site),
            SiteKind::Sum => self.put_checked(regs, &sum_check(size), site),
            SiteKind::Difference if in_place => {
                self.put_checked(regs, &difference_check_in_place(size), site)
            }
            SiteKind::Difference => self.put_checked(regs, &difference_check(size), site),
            SiteKind::Product => self.put_checked(regs, &product_check(size), site),
            SiteKind::Opposite => {
                self.put_checked(regs, &opposite_check(size), site);
                self.put(regs, &NEGATE_PLAIN);
            }
            SiteKind::Bound(bound) => self.put_bounded(regs, bound, site),
            SiteKind::ViewBound => self.put_checked(regs, &view_check(size), site),
            SiteKind::ViewEdge => self.put_checked(regs, &edge_check(size), site),
            SiteKind::Sample => {
                self.put_checked(regs, &sample_check(size), site);
                self.put(regs, &sample_words());
            }
        }
    }

    // The words of a site that does not stop.
    fn put_gone(&mut self, regs: Registers, kind: SiteKind, form: Form)
        requires room { length self.old ≤ 1 }
        requires range { AreInRange regs }
        ensures { self.new ≡ self.old ++ map encoded (all_over regs (site_words kind form Gone (is_in_place regs) 0)) }
    {
        match kind {
            SiteKind::Call(op) => self.put_operator(regs, op, form),
            SiteKind::Sum | SiteKind::ViewBound | SiteKind::ViewEdge => self.put(regs, &SUM),
            SiteKind::Difference => self.put(regs, &DIFFERENCE),
            SiteKind::Product => self.put(regs, &PRODUCT),
            SiteKind::Opposite => self.put(regs, &NEGATE_PLAIN),
            SiteKind::Bound(_) => {}
            SiteKind::Sample => self.put(regs, &sample_words()),
        }
    }

    /// Appends the words of a site that follow those of its way.
    pub(crate) fn put_site(
        &mut self,
        regs: Registers,
        kind: SiteKind,
        formed: (Form, Guard),
        site: u32,
    )
        requires room { length self.old ≤ 1 }
        requires range { AreInRange regs }
        ensures { self.new ≡ self.old ++ map encoded (all_over regs (site_words kind formed.0 formed.1 (is_in_place regs) site)) }
    {
        let (form, guard) = formed;
        match guard {
            Guard::Kept => self.put_kept(regs, kind, form, site),
            Guard::Gone => self.put_gone(regs, kind, form),
        }
    }

    // One register is copied to another.
    fn copying(rd: u8, rs: u8) -> Words
        requires to { rd < 32 }
        requires from { rs < 32 }
        ensures { result ≡ map encoded (copy rd rs) }
    {
        let mut words = Words::new();
        words.push(encode(Instr::addi(rd, rs, 0)));
        words
    }

    /// The words with which a site begins.
    pub(crate) fn begun(way: Way, regs: Registers) -> Words
        requires { ArePlaces regs }
        ensures { result ≡ map encoded (front way regs) }
    {
        let is_first = regs.result == regs.first;
        match way {
            Way::Moves if !is_first => Words::copying(regs.result, regs.first),
            Way::KeepsFirst if is_first => Words::copying(KEPT, regs.first),
            Way::KeepsThird if regs.result == regs.third => Words::copying(KEPT, regs.third),
            Way::KeepsBoth if is_first || regs.result == regs.second => {
                Words::copying(KEPT, regs.result)
            }
            Way::Turns if is_first && regs.result == regs.second => {
                Words::copying(KEPT, regs.first)
            }
            _ => Words::new(),
        }
    }
}
