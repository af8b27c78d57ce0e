ghost use Rattle.fsl_disk.specs.Images.{ImagesByPlace};

/// Says of disks in memory that a crash leaves the same by the steps of the calls as place by place. It has no code. The
/// length lies between the least and the greatest since the last sync, each place that was written or cut since may hold
/// any byte, and each other place holds its byte of the last sync.
pub fn images_by_place()
    ensures { ImagesByPlace }
{}
