//! Laws of claims and of certificates. The functions do nothing: their contracts are the laws.
ghost use Rattle.certificates.specs.Claims.{NoClaims, YesClaims};
ghost use Rattle.certificates.specs.Answers.{CertifiedAnswers};

/// Claims that rest on one another are true, though no claims lead to each other in circles.
pub fn claim_laws()
    ensures no { NoClaims }
    ensures yes { YesClaims }
{}

/// What a certificate shows is the answer.
pub fn certificate_laws()
    ensures { CertifiedAnswers }
{}
