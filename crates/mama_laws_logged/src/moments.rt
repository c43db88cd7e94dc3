ghost use Rattle.std.specs.Prelude.{◌^◌, ◌<◌, length};
ghost use Rattle.std.specs.List.{All};
ghost use Rattle.mama_record.specs.RunView.{moments_of};
ghost use Rattle.mama_log_read.specs.Logged.{IsMoment};
ghost use Rattle.mama_laws_logged.specs.Telling.{AreMoments};

/// Moments that clients read are below 2^64, as their type has them. It goes over them once: a contract knows the range of
/// a number in memory where the code has come by it.
pub fn moments_fit(clients: &[Vec<u64>])
    ensures { AreMoments (moments_of clients.now) }
{
    for moments in clients {
        client_moments_fit(moments.as_slice());
    }
}

/// So it is of one client.
fn client_moments_fit(moments: &[u64])
    ensures { All IsMoment moments.now }
{}

/// A log in memory has less than 2^64 bytes, so that it tells one record.
pub fn log_fits(log: &[u8])
    ensures { length log.now < 2 ^ 64 }
{}
