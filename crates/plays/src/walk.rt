// What the plays share: waking, stopping and stepping any device.
use channel::device::QDevice;
use channel::phase::Phase;

// Steps while the device stays in its phase, at most `most` times; tells the steps made.
pub fn steps_until_moved<D: QDevice>(device: &mut D, most: u32) -> u32 {
    let from = device.phase();
    for made in 0..most {
        if device.phase() != from {
            return made;
        }
        device.step();
    }
    most
}

// Brings a device that is stopped or denied back to Run.
pub fn back_to_run<D: QDevice>(device: &mut D) {
    let _ = device.raise();
    let _ = steps_until_moved(device, 1000);
}

// Lowers a device and steps it until it has answered: the steps, the phase and the denier then.
pub fn asked_to_stop<D: QDevice>(device: &mut D) -> (u32, Phase, Option<u32>) {
    let _ = device.lower();
    let made = steps_until_moved(device, 1000);
    (made, device.phase(), device.denier())
}
