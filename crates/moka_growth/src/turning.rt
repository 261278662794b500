//! Laws of whole steps of calls, and of many of them in any order.

ghost use Rattle.moka_growth.specs.Laws.{AccessCanBeMade, EachOrderIsGood, TurnIsMaps};

/// One step of a fitting call keeps the segment sound. The call goes on fitting, with the map as it
/// was and fewer steps left, or ends with what the map has under its key, and with the map changed
/// there alone. A step is an access; with a load that leads to the question what is to be done, it
/// is the answer too.
pub fn turn_is_maps()
    ensures maps { TurnIsMaps }
{}

/// The segment stays sound and each call fits, whichever calls begin and make their steps, in
/// whatever order, here or in other segments.
pub fn each_order_is_good()
    ensures good { EachOrderIsGood }
{}

/// A fitting call can make its access: something is seen, and some memory left.
pub fn access_can_be_made()
    ensures made { AccessCanBeMade }
{}
