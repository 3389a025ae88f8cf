// Values of registers, by the names that AHCI gives their bits and fields.
use ata_types::Port;
use hba_regs::{
    Capabilities, GlobalControl, PortCommand, PortInterrupts, PortReg, Reg, SataControl, SataError,
    SataStatus, TaskFile, is_set, with_bit, without_bit,
};

#[test]
fn bits_of_the_adapter(rt: HostRuntime) {
    let control = GlobalControl(0x8000_0001);
    assert_eq!(rt;
        (control.is_resetting(), control.is_ahci_enabled()),
        (true, true)
    );
    let capabilities = Capabilities(0x4000_1f03);
    let found = (
        capabilities.has_ncq(),
        capabilities.port_count_less_one(),
        capabilities.last_slot(),
    );
    assert_eq!(rt; found, (true, 3, 31));
    assert_eq!(rt; Reg::Px(Port(3), PortReg::Ci).offset(), 0x2b8);
}

#[test]
fn bits_of_an_engine(rt: HostRuntime) {
    let command = PortCommand(0x0000_c011);
    let set = (command.is_started(), command.is_receive_enabled());
    let running = (command.is_receive_running(), command.is_list_running());
    assert_eq!(rt;
        (set, running, command.current_slot()),
        ((true, true), (true, true), 0)
    );
    let stopped = command.without_start().without_receive();
    let started = PortCommand(0).with_receive().with_start();
    assert_eq!(rt;
        (stopped, started),
        (PortCommand(0x0000_c000), PortCommand(0x11))
    );
}

#[test]
fn bits_of_a_link(rt: HostRuntime) {
    let found = (
        SataStatus(0x123).detection(),
        SataControl(0x301).detection(),
    );
    let want = (SataStatus::DEVICE_WITH_LINK, SataControl::SEND_COMRESET);
    assert_eq!(rt; found, want);
    let errors = SataError::X | SataError::N;
    assert_eq!(rt; errors, SataError(0x0401_0000));
    assert_eq!(rt;
        (
            errors.has_device_presence_change(),
            errors.has_phy_ready_change()
        ),
        (true, true)
    );
}

// The causes that a driver of queued commands asks for.
#[test]
fn interrupt_causes(rt: HostRuntime) {
    let fatal = PortInterrupts::TFES
        | PortInterrupts::HBFS
        | PortInterrupts::HBDS
        | PortInterrupts::IFS;
    let link = PortInterrupts::PRCS | PortInterrupts::PCS;
    let received = PortInterrupts::SDBS | PortInterrupts::PSS | PortInterrupts::DHRS;
    let causes = fatal | link | received;
    assert_eq!(rt; causes, PortInterrupts(0x7840_004b));
    assert!(rt;
        causes.has_task_file_error()
            && causes.has_host_bus_fatal_error()
            && causes.has_host_bus_data_error()
    );
    assert!(rt;
        causes.has_interface_fatal_error()
            && causes.has_phy_ready_change()
            && causes.has_port_connect_change()
    );
}

#[test]
fn one_bit(rt: HostRuntime) {
    assert!(rt; is_set(0x8000_0000, 31) && !is_set(0x8000_0000, 30));
    assert_eq!(rt; with_bit(0x10, 0), 0x11);
    assert_eq!(rt; without_bit(0x11, 4), 1);
}

/// PxTFD as disks show it, with BSY, DRQ and ERR, status and error: after COMRESET, with nothing to do, at work, ready
/// to transfer, and after an error.
static TASK_FILES: &[(TaskFile, [bool; 3], u8, u8)] = &[
    (TaskFile(0x7f), [false, true, true], 0x7f, 0),
    (TaskFile(0x50), [false, false, false], 0x50, 0),
    (TaskFile(0xd0), [true, false, false], 0xd0, 0),
    (TaskFile(0x58), [false, true, false], 0x58, 0),
    (TaskFile(0x4041), [false, false, true], 0x41, 0x40),
];

#[test]
fn status_bytes(rt: HostRuntime) {
    for (shown, bits, status, error) in TASK_FILES {
        let found = [shown.is_busy(), shown.has_data_request(), shown.has_error()];
        assert_eq!(rt;
            (found, shown.status(), shown.error()),
            (*bits, *status, *error)
        );
    }
}
