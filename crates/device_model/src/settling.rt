// What a port does by itself before a register is read, and what the end of a reset makes of it.
ghost use Rattle.std.specs.Prelude.{◌≡◌, ◌%◌, ◌↔◌, IsTrue, true, false};
ghost use Rattle.adapter.specs.Steps.{MayLinkUp, port_after_link_up, port_after_hba_reset};
ghost use Rattle.device_model.specs.{ModelOwnSteps.{PortChangesBySettlingSteps}, PortView.{Media, port_of}};

use crate::halt::Halting;
use crate::port::PortModel;

/// Gives fields of a port one value.
macro_rules! set {
    ($port:ident, $value:tt: $($field:ident),+) => {
        $($port.$field = $value;)+
    };
}

impl PortModel {
    /// PxCMD.CR falls where ST is zero (AHCI 1.3.1, 3.3.7): no command is taken any more.
    fn fall(&mut self)
        ensures does { (m : Media) → PortChangesBySettlingSteps (port_of self.old m) (port_of self.new m) }
        ensures fallen { self.new.st ≡ false → self.new.cr ≡ true → false ≡ true }
    {
        if !self.st && self.cr {
            self.cr = false;
            self.taken.clear();
        }
    }

    /// PxCMD.FR falls where FRE and CR are zero (AHCI 1.3.1, 3.3.7).
    fn fr_fall(&mut self)
        ensures does { (m : Media) → PortChangesBySettlingSteps (port_of self.old m) (port_of self.new m) }
        ensures fallen { self.new.fre ≡ false → self.new.cr ≡ false → self.new.fr ≡ true → false ≡ true }
        ensures engine { (self.new.st ≡ self.old.st) × (self.new.cr ≡ self.old.cr) }
    {
        if self.fr && !self.fre && !self.cr {
            self.fr = false;
        }
    }

    /// Whether the link may come up.
    fn may_link(&self) -> bool
        ensures { IsTrue result ↔ ((self.now.present ≡ true) × (self.now.sctl_det % 16 ≡ 0)
            × (self.now.link_due ≡ true)) }
    {
        self.link_due && self.present && self.sctl_det % 16 == 0
    }

    /// The link comes up.
    fn link_up(&mut self)
        ensures up { (m : Media) → port_of self.new m ≡ port_after_link_up (port_of self.old m) 0x101 true }
        ensures engine { (self.new.st ≡ self.old.st) × (self.new.cr ≡ self.old.cr) }
        ensures area { (self.new.fre ≡ self.old.fre) × (self.new.fr ≡ self.old.fr) }
    {
        self.detected = true;
        self.fresh = true;
        self.halting = Halting::NotHalted;
        self.broken = false;
        self.tfd = Some(self.task_file() & 0xff77);
        self.sig = Some(0x101);
        self.serr_x = true;
        self.serr_n = true;
        self.link_due = false;
    }

    /// The link comes up, if it may; `true` says that it did.
    pub fn link_up_if_possible(&mut self) -> bool
        ensures up { result ≡ true → (m : Media) → MayLinkUp (port_of self.old m) 0x101
            × (port_of self.new m ≡ port_after_link_up (port_of self.old m) 0x101 true) }
        ensures same { result ≡ false → self.new ≡ self.old }
        ensures no_link_may_come { (self.new.present ≡ true) → (self.new.sctl_det % 16 ≡ 0) → (self.new.link_due ≡ true)
            → false ≡ true }
        ensures engine { (self.new.st ≡ self.old.st) × (self.new.cr ≡ self.old.cr) }
        ensures fre_and_fr_are_kept { (self.new.fre ≡ self.old.fre) × (self.new.fr ≡ self.old.fr) }
    {
        let may = self.may_link();
        if may {
            self.link_up();
        }
        may
    }

    /// CR and FR fall where they may.
    pub fn let_cr_and_fr_fall(&mut self)
        ensures does { (m : Media) → PortChangesBySettlingSteps (port_of self.old m) (port_of self.new m) }
        ensures cr_is_clear_without_st { self.new.st ≡ false → self.new.cr ≡ true → false ≡ true }
        ensures fr_is_clear_without_fre_and_cr { self.new.fre ≡ false → self.new.cr ≡ false → self.new.fr ≡ true
            → false ≡ true }
    {
        self.fall();
        self.fr_fall();
    }

    /// The adapter's reset has ended (AHCI 1.3.1, 10.4.3).
    pub fn apply_hba_reset(&mut self)
        ensures { (m : Media) → port_of self.new m ≡ port_after_hba_reset (port_of self.old m) }
    {
        self.link_due = self.link_due || self.sctl_det % 16 == 1;
        set!(self, 0: sctl_det, ie);
        set!(self, false: st, cr, fre, fr);
        set!(self, 0: ci, sact, is);
        set!(self, false: ips, other_causes, serr_n, serr_x, detected);
        set!(self, None: tfd, sig);
        self.taken.clear();
        set!(self, false: fresh, broken);
    }
}
