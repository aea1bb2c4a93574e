//! The letters of a core, as parcels.

ghost use Rattle.std.specs.Prelude.{◌≡◌, []};
ghost use Rattle.mx_member.specs.Member.{guarded};

use crate::parcel::Parcel;
use mx_letters::Outbox;

pub(crate) fn guard_all<M: Copy + Default>(letters: &mut Outbox<M>, out: &mut Outbox<Parcel<M>>)
    requires { out.old ≡ [] }
    ensures sent { out.new ≡ guarded letters.old }
    ensures empty { letters.new ≡ [] }
{
    for (to, letter) in letters.as_slice() {
        out.add(*to, Parcel::Guard(*letter));
    }
    letters.clear();
}
