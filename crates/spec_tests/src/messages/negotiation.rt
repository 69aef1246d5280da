ghost use Rattle.spec_tests.specs.inner.InitCases.{ExtIn16, InitAgreed, InitNewerMajor};
ghost use Rattle.spec_tests.specs.inner.InitCases.{InitKernel, InitOffered, InitShort};
ghost use Rattle.spec_tests.specs.inner.InitCases.{InitTooOld, NewerMinor, OlderKernel};

use fuse_init::*;
use fuse_request::InitIn;
use fuse_wire::InitFlags;
use std::test::*;

fn init_agreed()
    ensures { InitAgreed }
{}

fn init_short()
    ensures { InitShort }
{}

fn init_newer_major()
    ensures { InitNewerMajor }
{}

fn init_too_old()
    ensures { InitTooOld }
{}

fn newer_minor_case()
    ensures { NewerMinor }
{}

fn ext_in_16()
    ensures { ExtIn16 }
{}

fn init_kernel()
    ensures { InitKernel }
{}

fn init_offered()
    ensures { InitOffered }
{}

fn older_kernel()
    ensures { OlderKernel }
{}

// The vectors, which the check computes.
#[test]
fn vectors() {
    init_agreed();
    init_short();
    init_newer_major();
    init_too_old();
    newer_minor_case();
    ext_in_16();
    init_kernel();
    init_offered();
    older_kernel();
    agreed_bits();
}

// What Linux 6.18 offers.
const OFFER: InitIn = InitIn {
    major: 7,
    minor: 45,
    max_readahead: 0x20000,
    flags: 0x73ff_fffb,
    flags2: Some(0x5fd),
};

// The settings that this profile agrees on.
fn settings_of(profile: Profile) -> Option<Settings> {
    match negotiate(profile, &OFFER) {
        Negotiated::Agreed { settings, .. } => Some(settings),
        _ => None,
    }
}

fn is_settled(settings: Option<Settings>, minor: u32, flags: u64) -> bool {
    settings
        == Some(Settings {
            minor,
            max_readahead: 0x20000,
            flags: InitFlags(flags),
        })
}

#[test]
fn profiles(rt: HostRuntime) {
    let plain = settings_of(Profile::Plain);
    let everyday = settings_of(Profile::Everyday);
    assert!(rt; is_settled(plain, 40, 0x80_4000_0021));
    assert!(rt; is_settled(everyday, 40, 0x80_4084_6021));
    assert!(rt; Profile::Everyday.keeps());
    assert!(rt; !Profile::Plain.keeps());
    assert!(rt; PlainProfile::PROFILE == Profile::Plain);
    assert!(rt; EverydayProfile::PROFILE == Profile::Everyday);
}
