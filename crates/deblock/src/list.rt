// The edge listing.
ghost use Rattle.list_call.specs.Listing.{ListAnswer};

#[unsafe(no_mangle)]
pub extern "C" fn deblock_list(script: &[u8], out: &mut [u8]) -> usize
    ensures { ListAnswer script.now result out.old out.new }
{
    list_call::list(script, out)
}
