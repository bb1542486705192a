// The byte entry for C hosts: the functions of `entry` under their C names. The header is include/bredonych.h.
#![tactic(auto)]

ghost use Rattle.std.specs.Prelude.{◌≡◌, length};
ghost use Rattle.tid.specs.Sizes.{slot_count};
ghost use Rattle.image.specs.Stored.{convert_verdict, converted};
ghost use Rattle.entry.specs.Entry.{call, called, start_call, start_called};

// One step of the kernel that an image holds, in the edition that it was started in.
#[unsafe(no_mangle)]
pub extern "C" fn kernel_step(
    edition: u32,
    image: &mut [u8],
    areas: &mut [u8],
    request: &[u8],
    answer: &mut [u8],
) -> u32
    ensures { call result image.new areas.new answer.new ≡ called slot_count edition image.old areas.old request.now answer.old }
{
    entry::kernel_step(edition, image, areas, request, answer)
}

// A fresh kernel's image, whose first task has the priority and the entry number given.
#[unsafe(no_mangle)]
pub extern "C" fn kernel_start(edition: u32, priority: u32, entry: u32, image: &mut [u8]) -> u32
    ensures { start_call result image.new ≡ start_called slot_count edition priority entry image.old }
{
    entry::kernel_start(edition, priority, entry, image)
}

// An image of any form written in the form that has as many bytes as `out`.
#[unsafe(no_mangle)]
pub extern "C" fn kernel_convert(edition: u32, image: &[u8], out: &mut [u8]) -> u32
    ensures verdict { result ≡ convert_verdict slot_count edition image.now (length out.old) }
    ensures bytes { out.new ≡ converted slot_count edition image.now out.old }
{
    entry::kernel_convert(edition, image, out)
}
