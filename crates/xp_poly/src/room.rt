//! Lists at the front of a room.
ghost use Rattle.std.specs.Prelude.{◌≡◌, ◌+◌, ◌<◌, ◌≤◌, ◌++◌, length, option_to_list, take};
ghost use Rattle.xp_base.specs.declared.limits.TheConstants.{ARGUMENT_LIMIT};

use xp_base::ARGUMENT_LIMIT;

/// Room for one item at each input of a call.
pub const ROOM: usize = ARGUMENT_LIMIT as usize;

/// Puts the item, where there is one, behind those at the front, and tells how many they are then.
pub fn put<T: Copy>(room: &mut [T], count: usize, item: Option<T>) -> usize
    requires within { count < length room.old }
    requires room { length room.old ≡ ARGUMENT_LIMIT }
    ensures count { result ≤ count + 1 }
    ensures list { take result room.new ≡ take count room.old ++ option_to_list item }
{
    match item {
        Some(item) => {
            room[count] = item;
            count + 1
        }
        None => count,
    }
}
