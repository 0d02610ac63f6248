// Laws of the images.
ghost use Rattle.cr_outside_disk.specs.Moments.{SeenIsImage};

/// What a read gives, a stop may leave: no stop need lose a change.
pub fn what_a_read_gives_is_an_image()
    ensures { SeenIsImage }
{}
