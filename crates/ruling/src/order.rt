// The checks in document 01's order. Each function answers the first of its checks that refuses, if one does.
ghost use Rattle.std.specs.Prelude.{◌≡◌};
ghost use Rattle.ruling.specs.Ruling.{first_refusing, shape_checks, date_checks, token_checks, device_checks, checks};
ghost use Rattle.ruling.specs.Code.{of_rules, number_or_zero};

use crate::request::Request;
use crate::rules::Rules;
use answer::Refusal;

// What is ruled on: the rules of both lists, and the use that is asked for.
#[derive(Clone, Copy)]
pub(crate) struct Case {
    pub(crate) software: Rules,
    pub(crate) hardware: Rules,
    pub(crate) request: Request,
}

impl Case {
    // 30 to 35: what the use is, and with which algorithm, padding, digest and key size.
    #[tactic(auto, using(crate::proofs::First::unfit), unfolding(crate::specs::Ruling::shape_checks, crate::specs::Ruling::first_refusing, answer::specs::Answer::pick, checks::specs::Code::or_zero))]
    fn shape_refusal(&self) -> Result<(), Refusal>
        ensures { number_or_zero result ≡ first_refusing (shape_checks (of_rules self.now.software) (of_rules self.now.hardware) self.now.request) }
    {
        let s = &self.software;
        let h = &self.hardware;
        let q = &self.request;
        let p = q.purpose;
        if !checks::known_purpose(p) {
            return Err(Refusal::PurposeUnknown);
        }
        if checks::purpose_refused(p, s.purpose, h.purpose) {
            return Err(Refusal::PurposeNotAllowed);
        }
        let a = checks::agreed(s.algorithm, h.algorithm).ok_or(Refusal::AlgorithmUnfit)?;
        if !checks::algorithm_fits(p, a) {
            return Err(Refusal::AlgorithmUnfit);
        }
        let m = q.padding;
        if checks::padding_refused(p, a, m, s.padding, h.padding) {
            return Err(Refusal::PaddingNotAllowed);
        }
        let d = q.digest;
        if checks::digest_refused(p, a, m, d, s.digest, h.digest) {
            return Err(Refusal::DigestNotAllowed);
        }
        if checks::key_size_refused(p, a, m, d, s.key_size, h.key_size) {
            return Err(Refusal::KeyTooSmall);
        }
        Ok(())
    }

    // 36 to 38: 400, and the expiry date that applies.
    #[tactic(auto, unfolding(crate::specs::Ruling::date_checks, crate::specs::Ruling::first_refusing, answer::specs::Answer::pick))]
    fn date_refusal(&self) -> Result<(), Refusal>
        ensures { number_or_zero result ≡ first_refusing (date_checks (of_rules self.now.software) (of_rules self.now.hardware) self.now.request) }
    {
        let s = &self.software;
        let h = &self.hardware;
        let q = &self.request;
        let p = q.purpose;
        let clock = q.clock;
        let se = checks::expiry(p, s.origination, s.usage);
        let he = checks::expiry(p, h.origination, h.usage);
        if checks::clock_refused(clock, q.floor, s.active, h.active, se, he) {
            return Err(Refusal::ClockBelowFloor);
        }
        if checks::active_refused(clock, s.active, h.active) {
            return Err(Refusal::NotYetActive);
        }
        if checks::expiry_refused(clock, se, he) {
            return Err(Refusal::Expired);
        }
        Ok(())
    }

    // 39 to 41: 503, 504 and 505, and the token.
    #[tactic(auto, unfolding(crate::specs::Ruling::token_checks, crate::specs::Ruling::first_refusing, answer::specs::Answer::pick))]
    fn token_refusal(&self) -> Result<(), Refusal>
        ensures { number_or_zero result ≡ first_refusing (token_checks (of_rules self.now.software) (of_rules self.now.hardware) self.now.request) }
    {
        let s = &self.software;
        let h = &self.hardware;
        let q = &self.request;
        let sn = s.no_auth;
        let hn = h.no_auth;
        if checks::auth_missing(sn, hn, s.auth_type, h.auth_type) {
            return Err(Refusal::NoAuthRule);
        }
        let kinds = q.token.map(|token| token.kinds);
        if checks::token_refused(kinds, s.auth_type, h.auth_type) {
            return Err(Refusal::TokenUnfit);
        }
        // Without a token there is no 504 here.
        let not_fresh = q.token.is_some_and(|token| {
            checks::fresh_refused(
                q.uptime,
                token.time,
                q.handle,
                token.challenge,
                s.auth_type,
                h.auth_type,
                s.auth_timeout,
                h.auth_timeout,
            )
        });
        if not_fresh {
            return Err(Refusal::TokenNotFresh);
        }
        Ok(())
    }

    // 42 to 46: what the device and its user are at, and the uses so far.
    #[tactic(auto, unfolding(crate::specs::Ruling::device_checks, crate::specs::Ruling::first_refusing, answer::specs::Answer::pick))]
    fn device_refusal(&self) -> Result<(), Refusal>
        ensures { number_or_zero result ≡ first_refusing (device_checks (of_rules self.now.software) (of_rules self.now.hardware) self.now.request) }
    {
        let s = &self.software;
        let h = &self.hardware;
        let q = &self.request;
        if checks::null_refused(s.unlocked, h.unlocked, q.locked) {
            return Err(Refusal::DeviceLocked);
        }
        if checks::null_refused(s.presence, h.presence, !q.present) {
            return Err(Refusal::UserNotPresent);
        }
        if checks::null_refused(s.confirmation, h.confirmation, !q.confirmed) {
            return Err(Refusal::NotConfirmed);
        }
        if checks::null_refused(s.early_boot, h.early_boot, q.early_boot_over) {
            return Err(Refusal::EarlyBootOver);
        }
        if checks::uses_refused(q.uses, s.use_limit, h.use_limit) {
            return Err(Refusal::UsedUp);
        }
        Ok(())
    }

    // 30 to 46.
    pub(crate) fn first_refusal(&self) -> Result<(), Refusal>
        ensures { number_or_zero result ≡ first_refusing (checks (of_rules self.now.software) (of_rules self.now.hardware) self.now.request) }
    {
        self.shape_refusal()?;
        self.date_refusal()?;
        self.token_refusal()?;
        self.device_refusal()
    }
}
